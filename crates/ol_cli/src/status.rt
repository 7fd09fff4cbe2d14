//! How a call of the program ended.
ghost use Rattle.std.specs.Prelude.{◌≡◌};
ghost use Rattle.ol_cli.specs.Answers.{status_number};

/// How a call of the program ended. The refusals are tried in the order `Usage`, `ReadFault`,
/// `Limit` by bytes, `Syntax`, `Limit` by depth, `Limit` by nodes, `Spent`, `WriteFault`. For
/// `check`, the refusals of the trace file, `ReadFault` and `Limit`, follow all refusals of the
/// term file, and for `equal` those of the second file follow all refusals of the first. For a file
/// with a net, `BadNet` takes the place of `Syntax`, and `Limit` by the nodes that are left follows
/// `Spent`. `NoMemory` is possible at any point before the first byte is written.
#[derive(Clone, Copy, Debug, PartialEq, Eq)]
pub enum Status {
    /// The job was done, and its answer was written.
    Done,
    /// The words ask for no job.
    Usage,
    /// The bytes of the term file aren't a text of the grammar.
    Syntax,
    /// The one-thread run has more interactions than the fuel, and each complete run has more too.
    /// For `demand` the demand run has more than the fuel; then each complete run has more too, and
    /// the fuel is less than the number of inversions of the term's own net, if it has a head at
    /// each place that was asked for (fact `every_run` of the theorem `ends_say`; the theorem
    /// `demand_has_fuel` says how much fuel is enough).
    Spent,
    /// The source failed.
    ReadFault,
    /// The sink failed after it accepted a prefix of the text.
    WriteFault,
    /// Memory ran out, and nothing was written.
    NoMemory,
    /// The term file has more than 1,048,576 bytes, its term is deeper than 1,000, the net of its
    /// term has more than 200,000 nodes, or the trace file has more than 402,653,184 bytes; or
    /// the net file has more than 33,554,432 bytes, or more than 200,000 nodes of its net are left.
    Limit,
    /// The bytes of the net file aren't a text of the grammar, or its nodes and links make no net.
    BadNet,
}

impl Status {
    /// The number that a process ends with.
    pub fn number(self) -> u8
        ensures number { result ≡ status_number self }
    {
        match self {
            Status::Done => 0,
            Status::Usage => 1,
            Status::Syntax => 2,
            Status::Spent => 3,
            Status::ReadFault => 4,
            Status::WriteFault => 5,
            Status::NoMemory => 6,
            Status::Limit => 7,
            Status::BadNet => 9,
        }
    }
}

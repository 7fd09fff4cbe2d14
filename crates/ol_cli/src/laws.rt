//! The theorems about answers.

ghost use Rattle.ol_cli.specs.DemandFuel.{DemandHasFuel, HeadHasFuel};
ghost use Rattle.ol_cli.specs.EveryRun.{EveryRunIsLonger, EveryRunPrints, AnyRunEnds, AnyRunPrints, AnyRunRunsOut, OneThreadIsThere};
ghost use Rattle.ol_cli.specs.Follows.{EndsSay, FirstEndsSay, HandedFollows};
ghost use Rattle.ol_cli.specs.SourceLaws.{CertifyNeverDiffers, CertifyTellsVerdict, ComparisonTellsSources, HeadBesideLostTellsSources};
ghost use Rattle.ol_cli.specs.Laws.{
  OneAnswer,
  OneNetIsLeft,
  OneTreeIsDemanded,
  OneTreeIsPrinted,
  OneTreeIsWalked,
  WorkersAreNotSeen,
};
ghost use Rattle.ol_cli.specs.StartNet.{StartNetIsFit};

/// Two answers to the same job, except for the number of workers, and to the same bytes have the
/// same status and the same text. But `trace` prints any run, and of the text of `net` only the
/// first nine lines are the same: the stuck pairs and the net that follow may differ (`answer`). Any
/// two printed answers to a term have the same tree, the same term and the same number of stuck
/// pairs (`printed`, `walked`), and in demand order the same trace (`demanded`). Any two answers to
/// the net of a file have the same numbers of interactions of each rule, of stuck pairs, and of
/// nodes that are left (`left`).
pub fn one_answer()
    ensures answer { OneAnswer }
    ensures printed { OneTreeIsPrinted }
    ensures walked { OneTreeIsWalked }
    ensures demanded { OneTreeIsDemanded }
    ensures left { OneNetIsLeft }
{}

/// The number of workers decides on nothing: an answer to a job is also an answer to the same job
/// with any other number of workers.
pub fn workers_are_not_seen()
    ensures { WorkersAreNotSeen }
{}

/// Where a job prints an answer, each complete run leads to this answer, in whatever order it
/// rewrites active pairs (`prints`). Where the one-thread run is spent, each complete run has more
/// interactions than the fuel (`longer`).
pub fn every_run_answers()
    ensures prints { EveryRunPrints }
    ensures longer { EveryRunIsLonger }
{}

/// There is a one-thread run for each fuel (`there`), and any run determines its answer. Where a
/// complete run is within the fuel, the one-thread run ends within it (`ends`), and prints what is
/// printed of that run (`prints`). Where a run is longer than the fuel, or is as long as the fuel
/// and has an active pair left, the one-thread run is spent (`spent`). Therefore the answer of
/// `trace` to a term, which is determined by the run that it traces, also holds for the one-thread
/// run.
pub fn any_run_tells()
    ensures there { OneThreadIsThere }
    ensures prints { AnyRunPrints }
    ensures ends { AnyRunEnds }
    ensures spent { AnyRunRunsOut }
{}

/// Where `equal` compares the trees of two files, and all places agree, their terms have the same
/// normal form; where it finds a place with two heads that don't agree, the terms aren't
/// convertible (`equal`). Nor are they convertible where the first place at which the trees differ
/// has a head in one tree and is a `?` in the other (`lost`). And `certify` never finds that
/// leftmost reduction of a term ends in another term than that of its tree (`certify`); its text is
/// that of the verdict of `ol_beta` (`verdict`).
pub fn sources_are_told()
    ensures equal { ComparisonTellsSources }
    ensures lost { HeadBesideLostTellsSources }
    ensures certify { CertifyNeverDiffers }
    ensures verdict { CertifyTellsVerdict }
{}

/// The net of the term, before any step, determines how much fuel, in interactions, is enough for
/// `demand`. Where the term has a normal form, this net has a path to the head of each place of the
/// normal form. An inversion of such a path is a pair of crossings of which the first goes up
/// through a node, from an auxiliary port to the principal port, and a later crossing goes down.
/// As much fuel as there are inversions over all places is enough, whatever heads are asked for
/// (`fuel`). Where the term has a head normal form and one head is asked for, the number of
/// inversions of the path to this head is enough, and the text is this head, with `...` for each of
/// its arguments (`head`). Each such number is unique (theorem `inversions_are_one` of
/// `ol_law_completeness`).
pub fn demand_has_fuel()
    ensures fuel { DemandHasFuel }
    ensures head { HeadHasFuel }
{}

/// The net with which a term's runs begin in the answers of `ol` (`start_net_of_term`) meets the
/// premises of the theorems of `ol_law_completeness`. It has the paths of the term's own net, and
/// it is the start net of each graph that contains the term's own net.
pub fn start_net_is_fit()
    ensures { StartNetIsFit }
{}

/// Everything about the status and the text follows from how a call ended (clause `ends` of `ol`
/// and of the program's `run`): the text is the answer, the facts of `SaysWhenDone` and
/// `SaysOfAnswer` hold, and the status says whether a fault occurred (`says`). The answer is the
/// answer to the bytes that were read (`handed`). `first` says the same of the first call, by its
/// readings alone.
pub fn ends_say()
    ensures says { EndsSay }
    ensures handed { HandedFollows }
    ensures first { FirstEndsSay }
{}

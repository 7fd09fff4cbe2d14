//! Theorems on counts, on call-by-need, on the columns of a table and on parallel steps.
//!
//! Call-by-need finds the normal form, with at least as many β-steps as on-demand reduction and at
//! most as many as leftmost reduction.
//!
//! Call-by-need is defined by rules (Launchbury, A natural semantics for lazy evaluation, 1993),
//! continued from weak head normal forms into bodies and arguments; the machine of `need.rt` counts
//! its β-steps. With `ol_law_optimality` the order of the counts is: on-demand reduction, families,
//! call-by-need, leftmost reduction.
//!
//! The theorems on call-by-need start with the machine (`demand_is_no_more_than_need`,
//! `need_finds_the_normal_form`), and continue with the rules (`machine_follows_the_rules`,
//! `call_by_need_by_rules`) and examples (`small_terms`).
//!
//! Only β-steps are counted, and not the other moves of the machine. The normal form is stated for
//! the rules only, because names of the machine have no identity. Applicative order isn't compared.

ghost use Rattle.ol_counts.specs.Ordered.{CountIsOne};
ghost use Rattle.ol_counts.specs.WaveLaws.{TablesAgree};
ghost use Rattle.ol_counts.specs.NeedLaws.{NeedIsByFamilies, NeedEndsInTheNormalForm};
ghost use Rattle.ol_counts.specs.NeedLaws.{DemandIsNoMoreThanNeed, DemandIsNoMoreThanNeedForAHead};
ghost use Rattle.ol_counts.specs.NeedLaws.{NeedFindsTheNormalForm, NeedIsNoMoreThanLeftmost};
ghost use Rattle.ol_counts.specs.NeedLaws.{NeedFindsAHead, NeedComesToAHead, MachineIsByRules};
ghost use Rattle.ol_counts.specs.NeedLaws.{RulesAreFollowed, RulesGiveTheNormalForm};
ghost use Rattle.ol_counts.specs.NeedLaws.{RulesFindTheNormalForm, RulesAreNoMoreThanLeftmost};
ghost use Rattle.ol_counts.specs.NeedLaws.{DemandIsNoMoreThanRules};
ghost use Rattle.ol_counts.specs.NeedExamples.{SmallCounts, SmallForms};
ghost use Rattle.ol_counts.specs.Columns.{TableIsInOrder};

/// An order has one count of steps from a term within a bound: either it comes to its end after so
/// many steps, or it doesn't within the bound.
pub fn count_is_one()
    ensures one { CountIsOne }
{}

/// All complete runs from one net have one table: in each wave each rule stands as often in the one
/// as in the other, whatever their orders.
pub fn tables_agree()
    ensures { TablesAgree }
{}

/// If the machine of call-by-need ends, as many family steps as it made β-steps lead the term, with
/// any labels, to its normal form. It follows that on-demand reduction of the term's net makes at
/// most as many β-steps as the machine. For a single head, whether or not the machine ends,
/// on-demand reduction makes at most as many β-steps as the machine has made when it reaches a name
/// that nothing can reduce.
pub fn demand_is_no_more_than_need()
    ensures families { NeedIsByFamilies }
    ensures normal { NeedEndsInTheNormalForm }
    ensures demand { DemandIsNoMoreThanNeed }
    ensures head { DemandIsNoMoreThanNeedForAHead }
{}

/// If a term has a normal form, the machine of call-by-need ends, after at most as many β-steps as
/// leftmost reduction has steps. It reaches a name that nothing can reduce exactly if the term has
/// a head normal form.
pub fn need_finds_the_normal_form()
    ensures ends { NeedFindsTheNormalForm }
    ensures leftmost { NeedIsNoMoreThanLeftmost }
    ensures head { NeedComesToAHead }
    ensures finds_head { NeedFindsAHead }
{}

/// The machine counts the β-steps of call-by-need by the rules of Launchbury's natural semantics,
/// continued from weak head normal forms into bodies and arguments: it ends after n β-steps exactly
/// if the rules evaluate the term to some form in n β-steps.
pub fn machine_follows_the_rules()
    ensures rules { MachineIsByRules }
    ensures followed { RulesAreFollowed }
{}

/// By the rules of call-by-need a term evaluates to its normal form exactly if it has a normal
/// form. This takes at most as many β-steps as leftmost reduction, and at least as many as
/// on-demand reduction of the term's net, by either translation, for any number of heads, also if
/// it is stopped.
pub fn call_by_need_by_rules()
    ensures form { RulesGiveTheNormalForm }
    ensures found { RulesFindTheNormalForm }
    ensures leftmost { RulesAreNoMoreThanLeftmost }
    ensures demand { DemandIsNoMoreThanRules }
{}

/// Two small terms, their normal forms, and their numbers of β-steps, by the machine and by the
/// rules.
pub fn small_terms()
    ensures counts { SmallCounts }
    ensures forms { SmallForms }
{}

/// In a table that `ol-bench counts` prints of a valid term, for any bounds, the columns that are shown
/// and have ended are in this order: on-demand reduction has as many β-steps as there are families,
/// call-by-need at least as many, and leftmost reduction at least as many as call-by-need. If
/// on-demand reduction was cut, its β-steps are at most as many as the families.
pub fn table_is_in_order()
    ensures { TableIsInOrder }
{}

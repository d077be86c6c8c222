//! Laws that a batch's columns say no more and no less than its events.
ghost use Rattle.std.specs.Prelude.{◌≡◌};
ghost use Rattle.gate_intern.specs.GivenBack.{ApprovalsAreDistinct, ApprovalsComeBack, FieldsComeBack, TextsAreDistinct, ZeroIsMissing};
ghost use Rattle.gate_intern.specs.Limits.{most_rows};
ghost use Rattle.gate_intern.specs.Marks.{ApprovalsMarkTheirEvents, TextsMarkTheirEvents};
ghost use Rattle.gate_intern.specs.declared.columns.TheConstants.{MAX_ROWS};

/// The constant is the number that the definitions name.
pub fn the_limit_is_as_defined()
    ensures { MAX_ROWS ≡ most_rows }
{}

/// The texts that a column's numbers stand for are the texts of the field in each event. The number of an event that lacks the
/// field stands for nothing.
#[tactic(auto, using(crate::proofs::GivenBack::fields_come_back))]
pub fn columns_give_fields_back()
    ensures { FieldsComeBack }
{}

/// A column has 0 exactly where the event lacks the field.
#[tactic(auto, using(crate::proofs::GivenBack::zero_is_missing))]
pub fn zero_is_a_missing_field()
    ensures { ZeroIsMissing }
{}

/// No text of a field has two numbers.
#[tactic(auto, using(crate::proofs::GivenBack::texts_are_distinct))]
pub fn texts_are_distinct()
    ensures { TextsAreDistinct }
{}

/// No pair of category and vote has two numbers.
#[tactic(auto, using(crate::proofs::GivenBack::approvals_are_distinct))]
pub fn approvals_are_distinct()
    ensures { ApprovalsAreDistinct }
{}

/// The approvals that the numbers in an event's cells stand for, slot after slot, are the event's approvals, in order.
#[tactic(auto, using(crate::proofs::Rows::approvals_come_back))]
pub fn cells_give_approvals_back()
    ensures { ApprovalsComeBack }
{}

/// Take any test, and the numbers of those texts of a field that pass it. Their mask marks the events that have the field and
/// whose text passes.
#[tactic(auto, using(crate::proofs::Marks::texts_mark_their_events))]
pub fn texts_mark_their_events()
    ensures { TextsMarkTheirEvents }
{}

/// The mask of an approval's number marks the events that have that approval. The mask of a number that stands for no approval
/// marks none.
#[tactic(auto, using(crate::proofs::Marks::approvals_mark_their_events))]
pub fn approvals_mark_their_events()
    ensures { ApprovalsMarkTheirEvents }
{}

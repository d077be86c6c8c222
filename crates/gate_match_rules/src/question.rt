//! `Question`, an entry that is asked of a field.
use crate::asked::Asked;
use gate_intern::Field;

// An entry of a rule with the field of the events that it is asked of. `Answers` keeps an answer for each question.
#[derive(Clone, Copy, Drop)]
pub(crate) struct Question<'q, 'c> {
    pub(crate) field: Field,
    pub(crate) asked: &'q Asked<'c>,
}

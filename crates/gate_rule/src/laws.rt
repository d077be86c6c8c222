//! The law that lets matching ask one pattern in place of all patterns of the same text.
ghost use Rattle.gate_rule.specs.Laws.{SameTextSameAnswers};

/// Two patterns of one text give the same answers on every text, because `regex` reads a text under its default options the same
/// way each time. So an answer of one needn't be asked of the other again.
pub fn patterns_of_one_text_answer_alike()
    ensures { SameTextSameAnswers }
{}

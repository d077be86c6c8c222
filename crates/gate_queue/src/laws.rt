//! The two laws that what the proofs of threads use and what the contracts of a queue promise are the same rule.
ghost use Rattle.gate_queue.specs.Laws.{ProtocolKeepsTheRule, RuleIsTheProtocols};

/// Each state that the threads' protocol keeps is one that the queue's rule allows, and what each seat knows is true in it.
pub fn the_protocol_keeps_the_rule<T>()
    ensures { ProtocolKeepsTheRule T }
{}

/// Each state that a queue's rule allows is one that the threads' protocol can keep, with a seat for each sender and the taker's.
pub fn the_rule_is_the_protocols<T>()
    ensures { RuleIsTheProtocols T }
{}

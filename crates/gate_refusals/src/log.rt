//! What a run tells, and how a call is made, and once more where memory is refused to it.
use gate_record::Memory;
use std::alloc::Global;

// Room for all that a run tells, and for what is seen of a value, in bytes.
pub(crate) const TOLD: usize = 1_048_576;

const SEEN: usize = 65_536;

/// How a scenario ends: early where memory was refused to itself, or where it met what it doesn't expect.
pub(crate) type Ended = Result<(), Memory>;

/// The lines that a run tells: what came of the calls, and between them
///
/// - `refused CALL`: memory was refused to this call, which is made once more then
/// - `changed CALL`: what stood before isn't what stands after a refusal, or what was handed in didn't come back
/// - `twice CALL`: the call made again was refused, too
/// - `partial LINE`: the report of a run that gave up has this line
/// - `elsewhere`: memory was refused to the scenario itself
/// - `unexpected WHAT`: a call answered what it never does here; no undisturbed run has such a line
///
/// There is room for them, and for what is seen of a value before and after a call, from the beginning: no line takes memory.
#[derive(Drop)]
pub(crate) struct Log {
    pub(crate) alloc: Global,
    pub(crate) told: String,
    pub(crate) before: String,
    pub(crate) after: String,
}

impl Log {
    pub(crate) fn new(alloc: Global) -> Result<Log, Memory> {
        Ok(Log {
            alloc,
            told: String::with_capacity(alloc, TOLD)?,
            before: String::with_capacity(alloc, SEEN)?,
            after: String::with_capacity(alloc, SEEN)?,
        })
    }

    pub(crate) fn tell(&mut self, what: &str, call: &str) {
        let _ = write!(self.told, "{what} {call}\n");
    }

    /// Tells of a change, unless what stands is what has to stand.
    pub(crate) fn tell_unless(&mut self, is_right: bool, call: &str) {
        if !is_right {
            self.tell("changed", call);
        }
    }

    /// Ends a scenario early, and tells why: `twice`, or what is `unexpected`.
    pub(crate) fn end(&mut self, why: &str, what: &str) -> Memory {
        self.tell(why, what);
        Memory
    }
}

/// Adds to a text that has room for it from the beginning, as those of a `Log` have, so that this takes no memory.
#[macro_export]
macro_rules! say {
    ($text:expr, $($words:tt)*) => {{
        let _ = write!($text, $($words)*);
    }};
}

/// Ends a scenario where this is so, which it doesn't expect.
#[macro_export]
macro_rules! unexpected {
    ($log:expr; $is_so:expr, $what:literal) => {
        if $is_so {
            return Err($log.end("unexpected", $what));
        }
    };
}

/// Makes a call, and once more where memory is refused to it: what it answered in the end. The call is written by its crate, or its
/// name in the list stands before it. Its fault for memory is `Memory`, or else stands behind it, with what the call hands back. Last
/// come, in brackets, the words of a `write!` for what is seen of what the call may change: that has to be the same after a refusal.
#[macro_export]
macro_rules! made {
    ($log:expr; $krate:ident::$first:ident$(::$then:ident)?($($given:tt)*) $($rest:tt)*) => {
        $crate::made!(
            $log; concat!(stringify!($krate), " ", stringify!($first) $(, "::", stringify!($then))?) =>
            $krate::$first$(::$then)?($($given)*) $($rest)*
        )
    };
    ($log:expr; $name:expr => $call:expr $(, [$($seen:tt)*])?) => {
        $crate::made!($log; $name => $call, gate_record::Memory $(, [$($seen)*])?)
    };
    ($log:expr; $name:expr => $call:expr, $memory:pat $(, [$($seen:tt)*])?) => {{
        $(
            $log.before.clear();
            $crate::say!($log.before, $($seen)*);
        )?
        match $call {
            Err($memory) => {
                $log.tell("refused", $name);
                $(
                    $log.after.clear();
                    $crate::say!($log.after, $($seen)*);
                    let is_same = $log.before.as_str() == $log.after.as_str();
                    $log.tell_unless(is_same, $name);
                )?
                let again = $call;
                if let Err($memory) = &again {
                    $log.tell("twice", $name);
                }
                again
            }
            answer => answer,
        }
    }};
}

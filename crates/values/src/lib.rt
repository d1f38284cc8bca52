//! Worked values: one theorem that the checker computes, over the definitions that the contracts use, and a test of
//! constants as they are compiled.

#![tactic(auto)]

ghost use Rattle.values.specs.Values.{Values};

mod wide;

pub use wide::Wide;

/// The worked values hold.
pub fn worked_values_hold()
    ensures computed { Values }
{}

#[cfg(test)]
mod tests {
    use super::*;
    use records::{Hours, Lamp, Pair, RecordKind};

    // The check proves the constants of a pair; this shows them of the compiled code.
    #[test]
    fn constants_of_pairs(rt: HostRuntime) {
        assert_eq!(rt; <Lamp as RecordKind>::CODE, 563);
        assert_eq!(rt; <Lamp as RecordKind>::WIDTH, 14);
        assert_eq!(rt; <Pair<Wide, Hours> as RecordKind>::WIDTH, 65);
    }
}

use records::{Hours, Lamp, Pair, Setting, Tags};

/// The record that is told at the key of a number: one that differs from key to key in every field.
pub fn lamp_of(number: u32) -> Lamp {
    let low = (number % 65536) as u16;
    let high = (number / 65536) as u16;
    Pair {
        first: Hours { count: number },
        second: Pair {
            first: Tags { bits: low },
            second: Setting {
                stamp: number,
                source: high,
                word: low,
            },
        },
    }
}

/// The checksum after one more record: every field counts.
pub fn add_lamp(sum: u32, lamp: Lamp) -> u32 {
    let setting = lamp.second.second;
    sum.wrapping_mul(31)
        .wrapping_add(lamp.first.count)
        .wrapping_add(u32::from(lamp.second.first.bits))
        .wrapping_add(setting.stamp)
        .wrapping_add(u32::from(setting.source))
        .wrapping_add(u32::from(setting.word))
}

// Duration to the name's length.
ghost use Rattle.std.specs.Prelude.{◌≡◌};
ghost use Rattle.bits.specs.Table.{read};
ghost use Rattle.header.specs.Closing.{closing};

use crate::Facts;
use crate::opening::Opening;
use bits::{Choice, Choices, Cursor, Read, read_bits_if, read_bool_if};
use numbers::read_u32_if;

// Bools are numbers here, as in `Opening`.
#[derive(Clone, Copy)]
pub struct Closing {
    pub duration: u32,
    pub timecode: u32,
    pub is_last: u32,
    pub save_as_reference: u32,
    pub save_before_ct: u32,
    pub name_length: u32,
}

// U32(0, 1, u(8), u(32))
const DURATIONS: Choices = Choices {
    d0: Choice { base: 0, bits: 0 },
    d1: Choice { base: 1, bits: 0 },
    d2: Choice { base: 0, bits: 8 },
    d3: Choice { base: 0, bits: 32 },
};

// U32(0, u(4), 16 + u(5), 48 + u(10))
const NAME_LENGTHS: Choices = Choices {
    d0: Choice { base: 0, bits: 0 },
    d1: Choice { base: 0, bits: 4 },
    d2: Choice { base: 16, bits: 5 },
    d3: Choice { base: 48, bits: 10 },
};

pub fn read_closing(s: &[u8], c: Cursor, f: Facts, o: Opening, resets: bool) -> Read<Closing>
    ensures { result ≡ read (closing f o resets) s.now c }
{
    let on = o.all_default == 0;
    let kind = o.frame_type;
    let normal = kind == 0 || kind == 3;
    let shown = on && normal;
    let duration = read_u32_if(s, c, shown && f.animation, DURATIONS, 0);
    let timed = f.animation && f.timecodes;
    let timecode = read_bits_if(s, duration.next, shown && timed, 32, 0);
    let last = read_bool_if(s, timecode.next, shown, u32::from(kind == 0));
    let kept = kind != 1 && last.value == 0;
    let reference = read_bits_if(s, last.next, on && kept, 2, 0);
    let referable = kept && (duration.value == 0 || reference.value != 0);
    let before = kind == 2 || resets && referable;
    let ct = read_bool_if(s, reference.next, on && before, u32::from(!normal));
    let name = read_u32_if(s, ct.next, on, NAME_LENGTHS, 0);
    let next = name.next;
    Read {
        value: Closing {
            duration: duration.value,
            timecode: timecode.value,
            is_last: last.value,
            save_as_reference: reference.value,
            save_before_ct: ct.value,
            name_length: name.value,
        },
        next,
    }
}

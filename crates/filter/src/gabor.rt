// Gabor: a flag beside six weights, two a channel.
ghost use Rattle.std.specs.Prelude.{◌≡◌};
ghost use Rattle.bits.specs.Table.{read};
ghost use Rattle.filter.specs.Gabor.{gabor_default, gabor_disabled, gabor_of, channel, gabor};

use crate::weights::is_unbalanced;
use bits::{Cursor, Read};

// Channel by channel, two weights each, as C hands them out. A disabled filter has values too, +0.0 (`gabor_disabled`), so no Option.
#[derive(Clone, Copy)]
pub struct Gabor {
    pub enabled: bool,
    pub weights: [f32; 6],
}

// A channel's two weights.
#[derive(Clone, Copy)]
pub struct Channel {
    pub first: f32,
    pub second: f32,
}

// `Gabor::default()`.
pub fn gabor_default() -> Gabor
    ensures { result ≡ gabor_default }
{
    let a = 0.115169525;
    let b = 0.061248592;
    let weights = [a, b, a, b, a, b];
    Gabor {
        enabled: true,
        weights,
    }
}

// A disabled filter: every weight is +0.0.
pub fn gabor_disabled() -> Gabor
    ensures { result ≡ gabor_disabled }
{
    let weights = [0.0f32; 6];
    Gabor {
        enabled: false,
        weights,
    }
}

// Disabled, default or custom, as the two Bools say: the numbers that were sent, as `gabor_of` of specs/Gabor.antt has them.
fn gabor_of(enabled: u32, own: u32, x: Channel, y: Channel, z: Channel) -> Gabor
    ensures { result ≡ gabor_of enabled own x y z }
{
    let none = gabor_disabled();
    let usual = gabor_default();
    if enabled != 1 {
        return none;
    }
    if own != 1 {
        return usual;
    }
    let weights = [x.first, x.second, y.first, y.second, z.first, z.second];
    Gabor {
        enabled: true,
        weights,
    }
}

// A channel's weights where they are asked for; 7 where the two are unbalanced, at the first of them.
fn read_channel_if(s: &[u8], c: Cursor, on: bool) -> Read<Channel>
    ensures { result ≡ read (channel on 0) s.now c }
{
    let a = numbers::read_f16_if(s, c, on, 0);
    let b = numbers::read_f16_if(s, a.next, on, 0);
    let bad = is_unbalanced(a.value, b.value);
    let next = bits::refuse_if(b.next, bad, 7, 32);
    let first = numbers::f16_to_f32(a.value);
    let second = numbers::f16_to_f32(b.value);
    Read {
        value: Channel { first, second },
        next,
    }
}

// The bundle, where it is asked for; else the default.
pub fn read_gabor_if(s: &[u8], c: Cursor, on: bool) -> Read<Gabor>
    ensures { result ≡ read (gabor on) s.now c }
{
    let enabled = bits::read_bool_if(s, c, on, 1);
    let live = on && enabled.value == 1;
    let own = bits::read_bool_if(s, enabled.next, live, 0);
    let custom = own.value == 1;
    let x = read_channel_if(s, own.next, custom);
    let y = read_channel_if(s, x.next, custom);
    let z = read_channel_if(s, y.next, custom);
    let next = z.next;
    Read {
        value: gabor_of(enabled.value, own.value, x.value, y.value, z.value),
        next,
    }
}

impl Gabor {
    pub fn enabled(self) -> bool
        ensures { result ≡ self.enabled }
    {
        self.enabled
    }
}

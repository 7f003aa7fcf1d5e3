// Numbers of 32 bits out of a record's bytes, low byte first; bytes past the end count as 0.
ghost use Rattle.std.specs.Prelude.{◌≡◌, ◌<◌, get_or};
ghost use Rattle.replay.specs.Words.{word_at, long_at, four_at, frame_at, sized};

use grid::Frame;

// The byte at an index, 0 past the end.
fn byte(s: &[u8], i: usize) -> u8
    ensures { result ≡ get_or s.now i 0 }
{
    s.get(i).copied().unwrap_or(0)
}

// The number that begins at an index.
#[tactic(auto, unfolding(crate::specs::Words::word_at))]
pub fn number(s: &[u8], i: usize) -> u32
    requires { i < 1099511627776 }
    ensures { result ≡ word_at s.now i }
{
    u32::from_le_bytes([byte(s, i), byte(s, i + 1), byte(s, i + 2), byte(s, i + 3)])
}

pub fn word(s: &[u8], at: u32) -> u32
    ensures { result ≡ word_at s.now at }
{
    number(s, at as usize)
}

// A number of 64 bits, its low half first.
pub fn long(s: &[u8], at: u32) -> u64
    ensures { result ≡ long_at s.now at }
{
    let i = at as usize;
    let low = number(s, i);
    let high = number(s, i + 4);
    u64::from(low) + u64::from(high) * 4294967296
}

// Four numbers from an index on.
#[tactic(auto, unfolding(crate::specs::Words::four_at))]
pub fn four(s: &[u8], at: u32) -> [u32; 4]
    ensures { result ≡ four_at s.now at }
{
    let i = at as usize;
    [
        number(s, i),
        number(s, i + 4),
        number(s, i + 8),
        number(s, i + 12),
    ]
}

// A frame's six numbers.
#[tactic(auto, unfolding(crate::specs::Words::frame_at))]
pub fn frame(s: &[u8], at: u32) -> Frame
    ensures { result ≡ frame_at s.now at }
{
    let i = at as usize;
    Frame {
        width: number(s, i),
        height: number(s, i + 4),
        upsampling: number(s, i + 8),
        lf_level: number(s, i + 12),
        group_size_shift: number(s, i + 16),
        num_passes: number(s, i + 20),
    }
}

// How far a number is from 0, or below 0 from -1: k for -1 - k.
pub fn size(z: i32) -> u32
    ensures { result ≡ sized z }
{
    if z < 0 { (-1 - z) as u32 } else { z as u32 }
}

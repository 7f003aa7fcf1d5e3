// Both section entries, over the six numbers of a frame.
ghost use Rattle.toc.specs.Reading.{tables, first_reading, second_reading};
ghost use Rattle.c_words.specs.Records.{frame};
ghost use Rattle.c_words.specs.Contents.{roomed_reading, Listed};

use c_words::{frame, give_toc, no_room, status};

// The first entry: reads the permuted flag, then the sizes; a flag of 1 is "order needed".
pub fn hingevale_read_toc(
    s: &[u8],
    width: u32,
    height: u32,
    upsampling: u32,
    lf_level: u32,
    group_size_shift: u32,
    num_passes: u32,
    place: u64,
    offsets: &mut [u64],
    sizes: &mut [u32],
    order: &mut [u32],
    inverse: &mut [u32],
    out: &mut [u64],
) -> u64
    ensures { Listed (roomed_reading s.now (frame width height upsampling lf_level group_size_shift num_passes) out.old (first_reading s.now (frame width height upsampling lf_level group_size_shift num_passes) place (tables offsets.old sizes.old order.old inverse.old)))
        (tables offsets.old sizes.old order.old inverse.old)
        result offsets.new sizes.new order.new inverse.new out.old out.new }
{
    let f = frame(
        width,
        height,
        upsampling,
        lf_level,
        group_size_shift,
        num_passes,
    );
    if out.len() < 3 {
        return status(no_room(s.len(), f));
    }
    let t = toc::read_toc(s, f, place, offsets, sizes, order, inverse);
    give_toc(t, out)
}

// The second entry: a place and a lent order, on from the padding.
pub fn hingevale_read_toc_with_order(
    s: &[u8],
    width: u32,
    height: u32,
    upsampling: u32,
    lf_level: u32,
    group_size_shift: u32,
    num_passes: u32,
    place: u64,
    lent: &[u32],
    offsets: &mut [u64],
    sizes: &mut [u32],
    order: &mut [u32],
    inverse: &mut [u32],
    out: &mut [u64],
) -> u64
    ensures { Listed (roomed_reading s.now (frame width height upsampling lf_level group_size_shift num_passes) out.old (second_reading s.now (frame width height upsampling lf_level group_size_shift num_passes) place lent.now (tables offsets.old sizes.old order.old inverse.old)))
        (tables offsets.old sizes.old order.old inverse.old)
        result offsets.new sizes.new order.new inverse.new out.old out.new }
{
    let f = frame(
        width,
        height,
        upsampling,
        lf_level,
        group_size_shift,
        num_passes,
    );
    if out.len() < 3 {
        return status(no_room(s.len(), f));
    }
    let t = toc::read_toc_with_order(s, f, place, lent, offsets, sizes, order, inverse);
    give_toc(t, out)
}

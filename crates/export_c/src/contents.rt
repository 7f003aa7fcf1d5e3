// Both section entries, over the six numbers of a frame.
ghost use Rattle.toc.specs.Reading.{tables, first_reading, second_reading};
ghost use Rattle.c_words.specs.Records.{frame};
ghost use Rattle.c_words.specs.Contents.{roomed_reading, Listed};

// The first entry: reads the permuted flag, then the sizes; a flag of 1 is "order needed".
#[unsafe(no_mangle)]
pub extern "C" fn hingevale_read_toc(
    s: &[u8],
    width: u32,
    height: u32,
    upsampling: u32,
    lf_level: u32,
    group_size_shift: u32,
    num_passes: u32,
    place: u64,
    offsets: &mut [u64],
    sizes: &mut [u32],
    order: &mut [u32],
    inverse: &mut [u32],
    out: &mut [u64],
) -> u64
    ensures { Listed (roomed_reading s.now (frame width height upsampling lf_level group_size_shift num_passes) out.old (first_reading s.now (frame width height upsampling lf_level group_size_shift num_passes) place (tables offsets.old sizes.old order.old inverse.old)))
        (tables offsets.old sizes.old order.old inverse.old)
        result offsets.new sizes.new order.new inverse.new out.old out.new }
{
    export::hingevale_read_toc(
        s,
        width,
        height,
        upsampling,
        lf_level,
        group_size_shift,
        num_passes,
        place,
        offsets,
        sizes,
        order,
        inverse,
        out,
    )
}

// The second entry: a place and a lent order, on from the padding.
#[unsafe(no_mangle)]
pub extern "C" fn hingevale_read_toc_with_order(
    s: &[u8],
    width: u32,
    height: u32,
    upsampling: u32,
    lf_level: u32,
    group_size_shift: u32,
    num_passes: u32,
    place: u64,
    lent: &[u32],
    offsets: &mut [u64],
    sizes: &mut [u32],
    order: &mut [u32],
    inverse: &mut [u32],
    out: &mut [u64],
) -> u64
    ensures { Listed (roomed_reading s.now (frame width height upsampling lf_level group_size_shift num_passes) out.old (second_reading s.now (frame width height upsampling lf_level group_size_shift num_passes) place lent.now (tables offsets.old sizes.old order.old inverse.old)))
        (tables offsets.old sizes.old order.old inverse.old)
        result offsets.new sizes.new order.new inverse.new out.old out.new }
{
    export::hingevale_read_toc_with_order(
        s,
        width,
        height,
        upsampling,
        lf_level,
        group_size_shift,
        num_passes,
        place,
        lent,
        offsets,
        sizes,
        order,
        inverse,
        out,
    )
}

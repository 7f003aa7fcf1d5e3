// The header entry, over the facts as numbers.
ghost use Rattle.c_words.specs.Heading.{facts, buffers, HeadRead};

// The header entry: 2, 1, 3, then the first fault in reading order.
#[unsafe(no_mangle)]
pub extern "C" fn hingevale_read_frame_header(
    s: &[u8],
    width: u32,
    height: u32,
    xyb: bool,
    grey: bool,
    extra: u32,
    animation: bool,
    timecodes: bool,
    name: &mut [u8],
    upsampling: &mut [u32],
    blending: &mut [u32],
    words: &mut [u64],
    signed: &mut [i32],
    floats: &mut [f32],
) -> u64
    ensures { HeadRead (facts width height xyb grey extra animation timecodes) s.now result
        (buffers name.old upsampling.old blending.old words.old signed.old floats.old)
        (buffers name.new upsampling.new blending.new words.new signed.new floats.new) }
{
    export::hingevale_read_frame_header(
        s, width, height, xyb, grey, extra, animation, timecodes, name, upsampling, blending,
        words, signed, floats,
    )
}

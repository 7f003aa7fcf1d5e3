// The look-ups from a kind, a sample, a section number and a sent number. A kind goes by its number: All 0, LfGlobal 1, LfGroup 2,
ghost use Rattle.sections.specs.Kinds.{kind_of};
ghost use Rattle.sections.specs.Lookups.{section_of_sample, place_of, sent_of_section, section_of_sent};
ghost use Rattle.layout.specs.Layouts.{layout_of};
ghost use Rattle.c_words.specs.Answers.{Given};
ghost use Rattle.c_words.specs.Layouts.{layout_answer, section_by};
ghost use Rattle.c_words.specs.Records.{frame, section_number, sent_number, section_of_numbers, section_answer, sent_answer, kind_answer, place_answer};

// A kind, by its number, pass and group, to its section number.
#[unsafe(no_mangle)]
pub extern "C" fn hingevale_section_of_kind(
    width: u32,
    height: u32,
    upsampling: u32,
    lf_level: u32,
    group_size_shift: u32,
    num_passes: u32,
    kind: u32,
    pass_idx: u32,
    group_idx: u32,
    out: &mut [u64],
) -> u64
    ensures { Given (section_answer (section_of_numbers (frame width height upsampling lf_level group_size_shift num_passes) kind pass_idx group_idx)) out.old result out.new }
{
    export::hingevale_section_of_kind(
        width,
        height,
        upsampling,
        lf_level,
        group_size_shift,
        num_passes,
        kind,
        pass_idx,
        group_idx,
        out,
    )
}

// A section number to its kind.
#[unsafe(no_mangle)]
pub extern "C" fn hingevale_kind_of(
    width: u32,
    height: u32,
    upsampling: u32,
    lf_level: u32,
    group_size_shift: u32,
    num_passes: u32,
    section: u32,
    out: &mut [u64],
) -> u64
    ensures { Given (kind_answer (kind_of (frame width height upsampling lf_level group_size_shift num_passes) (section_number section))) out.old result out.new }
{
    export::hingevale_kind_of(
        width,
        height,
        upsampling,
        lf_level,
        group_size_shift,
        num_passes,
        section,
        out,
    )
}

// A sample and a pass to their section number.
#[unsafe(no_mangle)]
pub extern "C" fn hingevale_section_of_sample(
    width: u32,
    height: u32,
    upsampling: u32,
    lf_level: u32,
    group_size_shift: u32,
    num_passes: u32,
    x: u32,
    y: u32,
    pass: u32,
    out: &mut [u64],
) -> u64
    ensures { Given (section_answer (section_of_sample (frame width height upsampling lf_level group_size_shift num_passes) x y pass)) out.old result out.new }
{
    export::hingevale_section_of_sample(
        width,
        height,
        upsampling,
        lf_level,
        group_size_shift,
        num_passes,
        x,
        y,
        pass,
        out,
    )
}

// A frame's layout: what a look-up of a sample needs of the frame, measured once.
#[unsafe(no_mangle)]
pub extern "C" fn hingevale_layout_of(
    width: u32,
    height: u32,
    upsampling: u32,
    lf_level: u32,
    group_size_shift: u32,
    num_passes: u32,
    out: &mut [u64],
) -> u64
    ensures { Given (layout_answer (layout_of (frame width height upsampling lf_level group_size_shift num_passes))) out.old result out.new }
{
    export::hingevale_layout_of(
        width,
        height,
        upsampling,
        lf_level,
        group_size_shift,
        num_passes,
        out,
    )
}

// A sample and a pass to their section number, by a layout's words.
#[unsafe(no_mangle)]
pub extern "C" fn hingevale_section_in(
    words: &[u64],
    x: u32,
    y: u32,
    pass: u32,
    out: &mut [u64],
) -> u64
    ensures { Given (section_answer (section_by words.now x y pass)) out.old result out.new }
{
    export::hingevale_section_in(words, x, y, pass, out)
}

// A section number to its offset and size, through tables that an entry filled.
#[unsafe(no_mangle)]
pub extern "C" fn hingevale_section_at(
    width: u32,
    height: u32,
    upsampling: u32,
    lf_level: u32,
    group_size_shift: u32,
    num_passes: u32,
    offsets: &[u64],
    sizes: &[u32],
    section: u32,
    out: &mut [u64],
) -> u64
    ensures { Given (place_answer (place_of (frame width height upsampling lf_level group_size_shift num_passes) offsets.now sizes.now (section_number section))) out.old result out.new }
{
    export::hingevale_section_at(
        width,
        height,
        upsampling,
        lf_level,
        group_size_shift,
        num_passes,
        offsets,
        sizes,
        section,
        out,
    )
}

// A section number to its sent number, through the order.
#[unsafe(no_mangle)]
pub extern "C" fn hingevale_sent_of_section(
    width: u32,
    height: u32,
    upsampling: u32,
    lf_level: u32,
    group_size_shift: u32,
    num_passes: u32,
    order: &[u32],
    section: u32,
    out: &mut [u64],
) -> u64
    ensures { Given (sent_answer (sent_of_section (frame width height upsampling lf_level group_size_shift num_passes) order.now (section_number section))) out.old result out.new }
{
    export::hingevale_sent_of_section(
        width,
        height,
        upsampling,
        lf_level,
        group_size_shift,
        num_passes,
        order,
        section,
        out,
    )
}

// A sent number to its section number, through the inverse.
#[unsafe(no_mangle)]
pub extern "C" fn hingevale_section_of_sent(
    width: u32,
    height: u32,
    upsampling: u32,
    lf_level: u32,
    group_size_shift: u32,
    num_passes: u32,
    inverse: &[u32],
    sent: u32,
    out: &mut [u64],
) -> u64
    ensures { Given (section_answer (section_of_sent (frame width height upsampling lf_level group_size_shift num_passes) inverse.now (sent_number sent))) out.old result out.new }
{
    export::hingevale_section_of_sent(
        width,
        height,
        upsampling,
        lf_level,
        group_size_shift,
        num_passes,
        inverse,
        sent,
        out,
    )
}

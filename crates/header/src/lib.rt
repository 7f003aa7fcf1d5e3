// The frame header, from `src/header.rs`: its fields, in the file's order, the entry with its lent outputs, and the questions on a header.
#![tactic(auto)]

mod arrays;
mod blending;
mod closing;
mod defaults;
mod entry;
mod opening;
mod parts;
mod shape;

ghost use Rattle.std.specs.Prelude.{◌≡◌};
ghost use Rattle.header.specs.Questions.{is_keyframe, can_reference};
ghost use Rattle.header.specs.Record.{numbers_of, frame_of};

pub use blending::BlendingInfo;
pub use entry::{HeaderRead, judge_header, read_frame_header};
use filter::RestorationFilter;
use grid::Frame;
pub use shape::Passes;
use types::{Encoding, FrameFlags, FrameType};

// What a reader of the frame knows about the image: its size, whether it is XYB or grey, how many extra channels it has, and whether it
// is an animation with timecodes.
#[derive(Clone, Copy)]
pub struct Facts {
    pub width: u32,
    pub height: u32,
    pub xyb: bool,
    pub grey: bool,
    pub extra: u32,
    pub animation: bool,
    pub timecodes: bool,
}

// The header's record: what the Rust's struct keeps, computed fields too; the name, the extra channels' upsampling and their blending are in the lent
// buffers (no heap).
#[derive(Clone, Copy)]
pub struct FrameHeader {
    pub frame_type: FrameType,
    pub encoding: Encoding,
    pub flags: FrameFlags,
    pub do_ycbcr: bool,
    pub encoded_color_channels: u32,
    pub jpeg_upsampling: [u32; 3],
    pub upsampling: u32,
    pub group_size_shift: u32,
    pub x_qm_scale: u32,
    pub b_qm_scale: u32,
    pub passes: Passes,
    pub lf_level: u32,
    pub have_crop: bool,
    pub x0: i32,
    pub y0: i32,
    pub width: u32,
    pub height: u32,
    pub blending_info: BlendingInfo,
    pub duration: u32,
    pub timecode: u32,
    pub is_last: bool,
    pub save_as_reference: u32,
    pub resets_canvas: bool,
    pub save_before_ct: bool,
    pub name_length: u32,
    pub restoration_filter: RestorationFilter,
}

impl FrameHeader {
    // A frame that is shown: normal, and the last or of some duration.
    pub fn is_keyframe(self) -> bool
        ensures { result ≡ is_keyframe self }
    {
        let kind = self.frame_type;
        let normal = kind.is_normal_frame();
        normal && (self.is_last || self.duration != 0)
    }

    // Not the last, of no duration or saved, and no LF frame.
    pub fn can_reference(self) -> bool
        ensures { result ≡ can_reference self }
    {
        let kind = self.frame_type;
        let lf = kind.is_lf_frame();
        let kept = self.duration == 0 || self.save_as_reference != 0;
        !self.is_last && kept && !lf
    }

    pub fn encoded_color_channels(self) -> u32
        ensures { result ≡ self.encoded_color_channels }
    {
        self.encoded_color_channels
    }

    pub fn resets_canvas(self) -> bool
        ensures { result ≡ self.resets_canvas }
    {
        self.resets_canvas
    }

    // The six numbers that geometry needs.
    pub fn frame(self) -> Frame
        ensures { result ≡ frame_of (numbers_of self) }
    {
        let passes = self.passes;
        Frame {
            width: self.width,
            height: self.height,
            upsampling: self.upsampling,
            lf_level: self.lf_level,
            group_size_shift: self.group_size_shift,
            num_passes: passes.num_passes,
        }
    }
}

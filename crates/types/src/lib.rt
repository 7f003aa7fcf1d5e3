// The enums of a frame header, their numbers and their questions. A number that no case has is refused; a question refuses nothing.
#![tactic(auto)]

ghost use Rattle.std.specs.Prelude.{◌≡◌};
ghost use Rattle.types.specs.Types.{frame_type_number, encoding_number, blend_mode_number, frame_type_named, encoding_named, blend_mode_named};
ghost use Rattle.types.specs.Types.{is_normal, is_lf, is_progressive, uses_alpha, noise, patches, splines, use_lf_frame, skip_adaptive_lf_smoothing};

#[derive(Clone, Copy, Debug, PartialEq, Eq)]
pub enum FrameType {
    RegularFrame,
    LfFrame,
    ReferenceOnly,
    SkipProgressive,
}

#[derive(Clone, Copy, Debug, PartialEq, Eq)]
pub enum Encoding {
    VarDct,
    Modular,
}

#[derive(Clone, Copy, Debug, PartialEq, Eq)]
pub enum BlendMode {
    Replace,
    Add,
    Blend,
    MulAdd,
    Mul,
}

// A number that no case of the enum has.
#[derive(Clone, Copy, Debug, PartialEq, Eq)]
pub struct UnknownCase(pub u32);

#[derive(Clone, Copy, Debug, PartialEq, Eq)]
pub struct FrameFlags(pub u64);

impl From<FrameType> for u32 {
    ghost from_gives = { λ kind number. number ≡ frame_type_number kind };

    fn from(kind: FrameType) -> u32 {
        match kind {
            FrameType::RegularFrame => 0,
            FrameType::LfFrame => 1,
            FrameType::ReferenceOnly => 2,
            FrameType::SkipProgressive => 3,
        }
    }
}

impl TryFrom<u32> for FrameType {
    type Error = UnknownCase;

    ghost try_from_gives = { λ number kind. kind ≡ frame_type_named number };

    fn try_from(number: u32) -> Result<Self, UnknownCase> {
        match number {
            0 => Ok(FrameType::RegularFrame),
            1 => Ok(FrameType::LfFrame),
            2 => Ok(FrameType::ReferenceOnly),
            3 => Ok(FrameType::SkipProgressive),
            _ => Err(UnknownCase(number)),
        }
    }
}

impl From<Encoding> for u32 {
    ghost from_gives = { λ encoding number. number ≡ encoding_number encoding };

    fn from(encoding: Encoding) -> u32 {
        match encoding {
            Encoding::VarDct => 0,
            Encoding::Modular => 1,
        }
    }
}

impl TryFrom<u32> for Encoding {
    type Error = UnknownCase;

    ghost try_from_gives = { λ number encoding. encoding ≡ encoding_named number };

    fn try_from(number: u32) -> Result<Self, UnknownCase> {
        match number {
            0 => Ok(Encoding::VarDct),
            1 => Ok(Encoding::Modular),
            _ => Err(UnknownCase(number)),
        }
    }
}

impl From<BlendMode> for u32 {
    ghost from_gives = { λ mode number. number ≡ blend_mode_number mode };

    fn from(mode: BlendMode) -> u32 {
        match mode {
            BlendMode::Replace => 0,
            BlendMode::Add => 1,
            BlendMode::Blend => 2,
            BlendMode::MulAdd => 3,
            BlendMode::Mul => 4,
        }
    }
}

impl TryFrom<u32> for BlendMode {
    type Error = UnknownCase;

    ghost try_from_gives = { λ number mode. mode ≡ blend_mode_named number };

    fn try_from(number: u32) -> Result<Self, UnknownCase> {
        match number {
            0 => Ok(BlendMode::Replace),
            1 => Ok(BlendMode::Add),
            2 => Ok(BlendMode::Blend),
            3 => Ok(BlendMode::MulAdd),
            4 => Ok(BlendMode::Mul),
            _ => Err(UnknownCase(number)),
        }
    }
}

impl FrameType {
    pub fn is_normal_frame(self) -> bool
        ensures { result ≡ is_normal self }
    {
        matches!(self, FrameType::RegularFrame | FrameType::SkipProgressive)
    }

    pub fn is_lf_frame(self) -> bool
        ensures { result ≡ is_lf self }
    {
        matches!(self, FrameType::LfFrame)
    }

    pub fn is_progressive_frame(self) -> bool
        ensures { result ≡ is_progressive self }
    {
        matches!(self, FrameType::RegularFrame | FrameType::LfFrame)
    }
}

impl BlendMode {
    pub fn use_alpha(self) -> bool
        ensures { result ≡ uses_alpha self }
    {
        matches!(self, BlendMode::Blend | BlendMode::MulAdd)
    }
}

impl FrameFlags {
    pub fn noise(self) -> bool
        ensures { result ≡ noise self.0 }
    {
        self.0 & 0x1 != 0
    }

    pub fn patches(self) -> bool
        ensures { result ≡ patches self.0 }
    {
        self.0 & 0x2 != 0
    }

    pub fn splines(self) -> bool
        ensures { result ≡ splines self.0 }
    {
        self.0 & 0x10 != 0
    }

    pub fn use_lf_frame(self) -> bool
        ensures { result ≡ use_lf_frame self.0 }
    {
        self.0 & 0x20 != 0
    }

    pub fn skip_adaptive_lf_smoothing(self) -> bool
        ensures { result ≡ skip_adaptive_lf_smoothing self.0 }
    {
        self.0 & 0x80 != 0
    }
}

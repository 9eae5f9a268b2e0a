//! Tag control information.

ghost use Rattle.std.specs.Prelude.{◌≡◌, ◌+◌, ◌*◌, ◌<◌, ◌≤◌, ◌^◌};

/// Tag control information (IEEE 802.1ad clause 9).
#[derive(Clone, Copy, Debug, PartialEq, Eq)]
pub struct Tci {
    /// The priority, 0 to 7.
    pub pcp: u8,
    /// The drop eligibility, 0 or 1.
    pub dei: u8,
    /// The identifier of the VLAN, 0 to 4095.
    pub vid: u16,
    ghost pcp_fits: { pcp ≤ 7 },
    ghost dei_fits: { dei ≤ 1 },
    ghost vid_fits: { vid ≤ 4095 },
}

impl Tci {
    ghost use Rattle.pb_frame.specs.Tags.{control};

    /// Returns the two octets of the tag as one number.
    pub fn value(&self) -> u16
        ensures { result ≡ control self.now.pcp self.now.dei self.now.vid }
    {
        u16::from(self.pcp) * 8192 + u16::from(self.dei) * 4096 + self.vid
    }

    /// Reads the tag from the number of its two octets.
    pub fn of(value: u16) -> Tci
        ensures { control result.pcp result.dei result.vid ≡ value }
    {
        Tci {
            pcp: (value / 8192) as u8,
            dei: (value / 4096 % 2) as u8,
            vid: value % 4096,
        }
    }
}

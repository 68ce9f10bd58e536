//! A terminal's flags as C gives them.

ghost use Rattle.std.specs.Prelude.{◌≡◌};
ghost use Rattle.tn_c.specs.parts.Terminals.{flags_given};

use tn_discipline::Flags;

/// The flags of a terminal, under their names in POSIX.1-2017, XBD 11.2, in the order of `tn_flags`.
#[repr(C)]
#[derive(Clone, Copy, Debug, PartialEq, Eq)]
pub struct TerminalFlags {
    pub icrnl: bool,
    pub inlcr: bool,
    pub igncr: bool,
    pub isig: bool,
    pub echo: bool,
    pub echoe: bool,
    pub echok: bool,
    pub echonl: bool,
    pub tostop: bool,
    pub opost: bool,
    pub onlcr: bool,
}

impl TerminalFlags {
    /// Returns these flags as those of a terminal.
    pub fn flags(&self) -> Flags
        ensures { result ≡ flags_given self.now }
    {
        Flags {
            icrnl: self.icrnl,
            inlcr: self.inlcr,
            igncr: self.igncr,
            isig: self.isig,
            echo: self.echo,
            echoe: self.echoe,
            echok: self.echok,
            echonl: self.echonl,
            tostop: self.tostop,
            opost: self.opost,
            onlcr: self.onlcr,
        }
    }
}

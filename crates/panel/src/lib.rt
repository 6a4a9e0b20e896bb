// The panel that plays a score (document 01, 'Score and program'): a chip, the clocks that it has run, and whether the
// bits that fade from its bus are watched (document 02, request 5).
#![tactic(auto)]

ghost use Rattle.std.specs.Prelude.{◌≡◌};
ghost use Rattle.pack.specs.Pack.{over};
ghost use Rattle.panel.specs.Panel.{fresh, ran_to_by, leapt_by, watching, written, read_of, levels, shown_told};

use sid::Mos6581;

#[derive(Clone, Copy, PartialEq, Eq, Debug)]
pub struct Panel {
    pub chip: Mos6581,
    pub clock: u32,
    pub watched: bool,
}

// The panel after a leap, and the bits that its bus lost on the last clock of it.
#[derive(Clone, Copy, PartialEq, Eq, Debug)]
pub struct Leapt {
    pub panel: Panel,
    pub lost: u8,
}

#[derive(Clone, Copy, PartialEq, Eq, Debug)]
pub struct PanelRead {
    pub panel: Panel,
    pub byte: u8,
}

// What a voice gives: its code and its level.
#[derive(Clone, Copy, Debug, PartialEq, Eq)]
pub struct Shown {
    pub code: u16,
    pub level: u8,
}

// What an `L` line says of the three voices, each by its name as in the chip: an array would hide how many there are
// from the specs, where it is a list.
#[derive(Clone, Copy, Debug, PartialEq, Eq)]
pub struct Display {
    pub voice_0: Shown,
    pub voice_1: Shown,
    pub voice_2: Shown,
}

// What the chip's calls tell of the voice named.
#[tactic(auto, unfolding(crate::specs::Panel::shown_told))]
fn shown_by(chip: Mos6581, voice: u8) -> Shown
    ensures { result ≡ shown_told chip voice }
{
    Shown {
        code: chip.code(voice).unwrap_or(0),
        level: chip.level(voice).unwrap_or(0),
    }
}

impl Panel {
    pub fn new() -> Panel
        ensures { result ≡ fresh }
    {
        Panel {
            chip: Mos6581::new(),
            clock: 0,
            watched: false,
        }
    }

    // A stamp that has gone by leaves the panel as it is. The codes of combined waveforms come from a lent pack.
    pub fn run_to(mut self, stamp: u32, pack: &[u16]) -> Panel
        ensures { result ≡ ran_to_by (over pack.now) stamp self }
    {
        if self.clock < stamp {
            self.chip = run::run_over(self.chip, (stamp - self.clock) as u64, pack);
            self.clock = stamp;
        }
        self
    }

    // To the stamp, or only to the next clock that may lose bits, where that comes first: no clock before it does.
    pub fn leap_to(self, stamp: u32, pack: &[u16]) -> Leapt
        ensures { result ≡ leapt_by (over pack.now) stamp self }
    {
        let bus = self.chip.data_bus;
        let leap = stamp.saturating_sub(self.clock).min(bus.to_expiry());
        let panel = self.run_to(self.clock + leap, pack);
        Leapt {
            panel,
            lost: bus.value - panel.chip.data_bus.value,
        }
    }

    pub fn watch(self) -> Panel
        ensures { result ≡ watching self }
    {
        Panel {
            watched: true,
            ..self
        }
    }

    pub fn write(self, address: u8, value: u8) -> Panel
        ensures { result ≡ written self address value }
    {
        Panel {
            chip: self.chip.write(address as u16, value),
            ..self
        }
    }

    #[tactic(auto, unfolding(crate::specs::Panel::read_of))]
    pub fn read(self, address: u8) -> PanelRead
        ensures { result ≡ read_of self address }
    {
        let read = self.chip.read(address as u16);
        PanelRead {
            panel: Panel {
                chip: read.chip,
                ..self
            },
            byte: read.byte,
        }
    }

    #[tactic(auto, unfolding(crate::specs::Panel::levels, crate::specs::Panel::shown_told, sid::specs::Sid::named, sid::specs::Sid::voice_of))]
    pub fn levels(self) -> Display
        ensures { result ≡ levels self }
    {
        Display {
            voice_0: shown_by(self.chip, 0),
            voice_1: shown_by(self.chip, 1),
            voice_2: shown_by(self.chip, 2),
        }
    }
}

// The state in hand, the four areas, and how many bytes of each there are and how many of these are lent.
use block::Block;
use promises::State;

// The largest areas that a script may ask for.
const LOG: usize = 64 * Block::SIZE;

const HOME: usize = 16 * Block::PAGE;

const FRAMES: usize = 8 * Block::PAGE;

const STAGING: usize = 8 * Block::NEW_BYTES;

// Bytes of each area.
#[derive(Clone, Copy)]
pub struct Lengths {
    pub log: usize,
    pub home: usize,
    pub frames: usize,
    pub staging: usize,
}

// Ready: areas were asked for. Whole: as long as they were asked for.
#[derive(Drop)]
pub struct Desk {
    pub ready: bool,
    pub state: State,
    pub whole: Lengths,
    pub lent: Lengths,
    pub log: [u8; LOG],
    pub home: [u8; HOME],
    pub frames: [u8; FRAMES],
    pub staging: [u8; STAGING],
}

impl Desk {
    // No areas yet.
    pub fn bare() -> Desk {
        let none = Lengths {
            log: 0,
            home: 0,
            frames: 0,
            staging: 0,
        };
        Desk {
            ready: false,
            state: State::all_zero(),
            whole: none,
            lent: none,
            log: [0; LOG],
            home: [0; HOME],
            frames: [0; FRAMES],
            staging: [0; STAGING],
        }
    }

    // Areas of so many slots, pages and frames, all lent and filled as the language says, and the all-zero state.
    pub fn make_areas(&mut self, slots: usize, pages: usize, frames: usize) {
        let frames = frames.min(8);
        self.ready = true;
        self.state = State::all_zero();
        self.whole = Lengths {
            log: slots.min(64) * Block::SIZE,
            home: pages.min(16) * Block::PAGE,
            frames: frames * Block::PAGE,
            staging: frames * Block::NEW_BYTES,
        };
        self.lent = self.whole;
        self.log.fill(255);
        script::home_bytes(&mut self.home);
        self.frames.fill(170);
        self.staging.fill(170);
    }

    // Other counts are lent, or all where there are fewer.
    pub fn lend(&mut self, lent: Lengths) {
        self.lent = Lengths {
            log: lent.log.min(self.whole.log),
            home: lent.home.min(self.whole.home),
            frames: lent.frames.min(self.whole.frames),
            staging: lent.staging.min(self.whole.staging),
        };
    }

    // A cut: the state is gone, and what frames and staging held.
    pub fn cut(&mut self) {
        self.state = State::all_zero();
        self.frames.fill(85);
        self.staging.fill(85);
    }
}

// So many of an area's first bytes, or all of them.
pub fn front(area: &[u8], count: usize) -> &[u8] {
    &area[..count.min(area.len())]
}

// The same, to be written.
pub fn front_mut(area: &mut [u8], count: usize) -> &mut [u8] {
    let count = count.min(area.len());
    &mut area[..count]
}

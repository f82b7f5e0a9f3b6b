// A strip panel and what a painter asks of it.
ghost use Rattle.std.specs.Prelude.{◌≡◌, false, [], length, replicate};
ghost use Rattle.std.specs.List.{slice_get};
ghost use Rattle.list.specs.Entries.{places as places_of};
ghost use Rattle.strip.specs.Strip.{picture_of, waiting_of};
ghost use Rattle.strip.specs.Waiting.{KeepsWaiting};

use glass::stroke::BLANK;
use list::BoundedList;
use panel::Picture;

pub mod cells;

// A cell that was put at a place.
#[derive(Clone, Copy, Debug, PartialEq, Eq)]
pub struct Change {
    pub place: usize,
    pub cell: u64,
}

// What a place for a change holds before it is used.
pub const NO_CHANGE: Change = Change {
    place: 0,
    cell: BLANK,
};

// The picture is the cells as they were when the list of changes began. The changes came after it, oldest first;
// `all` is the flag that tells the painter to paint all places. (A flag and no enum: changes wait under a raised flag too.)
#[derive(Drop)]
pub struct StripPanel<'a> {
    picture: Picture,
    changes: BoundedList<'a, Change>,
    all: bool,
}

impl<'a> StripPanel<'a> {
    // Blank, with nothing waiting, over places of the builder's.
    pub fn over(places: &'a mut [Change]) -> StripPanel<'a>
        ensures picture { picture_of result ≡ replicate 40 32 }
        ensures none { waiting_of result ≡ [] }
        ensures flag { result.all ≡ false }
        ensures places { places_of result.changes ≡ places.old }
        ensures lent { result.changes.slots.ghost_name ≡ places.entry.ghost_name }
    {
        StripPanel {
            picture: Picture::blank(),
            changes: BoundedList::over(places),
            all: false,
        }
    }

    // The changes that wait to be painted, oldest first.
    pub fn changes(&self) -> &[Change]
        ensures { result.now ≡ waiting_of self.now }
    {
        self.changes.as_slice()
    }

    // How many changes wait to be painted.
    pub fn waiting(&self) -> usize
        ensures count { result ≡ length (waiting_of self.now) }
        ensures kept { KeepsWaiting }
    {
        self.changes.count()
    }

    // The waiting change number n, counted from 0, oldest first.
    pub fn change(&self, n: usize) -> Option<Change>
        ensures { result ≡ slice_get (waiting_of self.now) n }
    {
        self.changes.nth(n)
    }

    // Whether all places are to be painted, since changes went into the picture unpainted.
    pub fn paint_all(&self) -> bool
        ensures { result ≡ self.now.all }
    {
        self.all
    }
}

// The list, and its one refusal.
ghost use Rattle.std.specs.Prelude.{◌≡◌, ◌-◌, ◌≤◌, [], ◌∷◌, ◌++◌, length, is_ok, if◌then◌else◌, Ok, Err, ◌==◌, nat_lt, slice_set};
ghost use Rattle.list.specs.Entries.{entries, places, capacity};
ghost use Rattle.list.specs.Numbers.{list_refusal};
ghost use Rattle.std.specs.List.{slice_get};

#[derive(Clone, Copy, Debug, PartialEq, Eq)]
pub enum ListRefusal {
    Full = 42,
}

// The number by which it is told.
impl From<ListRefusal> for u8 {
    ghost from_gives = { λ refusal number. number ≡ list_refusal refusal };

    fn from(refusal: ListRefusal) -> u8 {
        refusal as u8
    }
}

// The first `len` places are in use; they are lent, so that nothing needs a heap. No ghost field ties `len` to the places, since a struct that
// has one and holds a `&mut` cannot be held by value in another: so every method stands at any `len`.
#[derive(Drop)]
pub struct BoundedList<'a, T> {
    slots: &'a mut [T],
    len: usize,
}

impl<'a, T: Copy> BoundedList<'a, T> {
    pub fn over(slots: &'a mut [T]) -> BoundedList<'a, T>
        ensures empty { entries result ≡ [] }
        ensures kept { places result ≡ slots.old }
        ensures lent { result.slots.ghost_name ≡ slots.entry.ghost_name }
    {
        BoundedList { slots, len: 0 }
    }

    // The entries in order, which are the places in use.
    pub fn as_slice(&self) -> &[T]
        ensures value { result.now ≡ entries self.now }
        ensures within { length result.now ≤ capacity self.now }
    {
        &self.slots[..self.len.min(self.slots.len())]
    }

    pub fn count(&self) -> usize
        ensures value { result ≡ length (entries self.now) }
        ensures within { result ≤ capacity self.now }
    {
        self.as_slice().len()
    }

    pub fn is_empty(&self) -> bool
        ensures { result ≡ (length (entries self.now) == 0) }
    {
        self.count() == 0
    }

    // How many more it can take.
    pub fn free(&self) -> usize
        ensures { result ≡ capacity self.now - length (entries self.now) }
    {
        self.slots.len() - self.count()
    }

    // Refused exactly where the list is full, and then it is as it was.
    pub fn append(&mut self, item: T) -> Result<(), ListRefusal>
        ensures answer { result ≡ (if nat_lt (length (entries self.old)) (capacity self.old) then Ok tt else Err ListRefusal.Full) }
        ensures entries { entries self.new ≡ (if is_ok result then entries self.old ++ (item ∷ []) else entries self.old) }
        ensures places { places self.new ≡ (if is_ok result then slice_set (places self.old) (length (entries self.old)) item else places self.old) }
        ensures capacity { capacity self.new ≡ capacity self.old }
        ensures refused { capacity self.old ≤ length (entries self.old) → self.new ≡ self.old }
        ensures lent { self.new.slots.ghost_name ≡ self.old.slots.ghost_name }
    {
        let count = self.count();
        if count < self.slots.len() {
            self.slots[count] = item;
            self.len = count + 1;
            Ok(())
        } else {
            Err(ListRefusal::Full)
        }
    }

    pub fn clear(&mut self)
        ensures empty { entries self.new ≡ [] }
        ensures kept { places self.new ≡ places self.old }
        ensures lent { self.new.slots.ghost_name ≡ self.old.slots.ghost_name }
    {
        self.len = 0;
    }

    // The entry number n, counted from 0.
    pub fn nth(&self, n: usize) -> Option<T>
        ensures { result ≡ slice_get (entries self.now) n }
    {
        self.as_slice().get(n).copied()
    }
}

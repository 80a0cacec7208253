//! Which items were begun.

ghost use Rattle.std.specs.Prelude.{ℕ, ◌≡◌, ◌≢◌, ◌<◌, ◌≤◌, ◌↔◌, ◌∷◌, [], IfNone, IfSome, IsTrue, List, false, true, get_or, length, replicate};
ghost use Rattle.std.specs.List.{AllByRecursion};
ghost use Rattle.definitions.specs.declared.block.Block.{Block};
ghost use Rattle.certificates.specs.Validity.{IsOneOf};
ghost use Rattle.certificate_judge.specs.declared.begun.TheConstants.{MOST_ITEMS};
ghost use Rattle.certificate_judge.specs.Marks.{AreMarked, HaveOwnPlaces};

use definitions::Block;

/// The most items that a window has: a hundred years, for each of 60 first seconds, and of 61 with a leap second.
pub const MOST_ITEMS: usize = 12_100;

/// The items of a certificate, with a mark for each that was begun. It takes no memory.
#[derive(Drop)]
pub struct Begun<'a> {
    /// The items.
    pub items: &'a [Block],
    /// Their marks.
    pub marks: [bool; MOST_ITEMS],
    /// Where an item is looked for first.
    pub next: usize,
    pub ghost few: { length items.now ≤ MOST_ITEMS },
    pub ghost once: { HaveOwnPlaces items.now },
    pub ghost within: { next ≤ length items.now },
}

impl<'a> Begun<'a> {
    /// None of the items was begun.
    pub fn new(items: &'a [Block]) -> Begun<'a>
        requires few { length items.now ≤ MOST_ITEMS }
        requires once { HaveOwnPlaces items.now }
        ensures items { result.items.now ≡ items.now }
        ensures none { AreMarked items.now result.marks [] }
    {
        Begun {
            items,
            marks: no_marks(),
            next: 0,
        }
    }

    /// Begins an item. It isn't begun where it was before, or where the block is no item.
    pub fn begin(&mut self, block: &Block) -> bool
        ensures items { self.new.items.now ≡ self.old.items.now }
        ensures some { IsTrue result → IsOneOf self.old.items.now block.now }
        ensures begun { (begun : List Block) → AreMarked self.old.items.now self.old.marks begun → IsTrue result
            → ¬ (IsOneOf begun block.now) × AreMarked self.old.items.now self.new.marks (block.now ∷ begun) }
        ensures not_begun { (begun : List Block) → AreMarked self.old.items.now self.old.marks begun
            → IsOneOf self.old.items.now block.now → ¬ (IsOneOf begun block.now) → IsTrue result }
    {
        let Some(place) = self.place_of(block) else {
            return false;
        };
        if self.is_marked(place) {
            return false;
        }
        self.marks[place] = true;
        self.next = place + 1;
        true
    }

    /// Whether each item was begun.
    pub fn all(&self) -> bool
        ensures { (begun : List Block) → AreMarked self.now.items.now self.now.marks begun
            → IsTrue result ↔ AllByRecursion (IsOneOf begun) self.now.items.now }
    {
        let mut i = 0;
        while i < self.items.len() {
            if !self.is_marked(i) {
                return false;
            }
            i += 1;
        }
        true
    }

    fn is_marked(&self, place: usize) -> bool
        requires { place < length self.now.items.now }
        ensures { result ≡ get_or self.now.marks place false }
    {
        self.marks[place]
    }

    // Where the block stands among the items. It is looked for behind the item that was begun last, and then from the first on.
    fn place_of(&self, block: &Block) -> Option<usize>
        ensures some { IfSome result (λ place. (place < length self.now.items.now) × ((d : Block) → get_or self.now.items.now place d ≡ block.now)) }
        ensures none { IfNone result ((k : ℕ) (d : Block) → k < length self.now.items.now → get_or self.now.items.now k d ≢ block.now) }
    {
        let behind = self.place_in(block, self.next, self.items.len());
        if behind.is_some() {
            return behind;
        }
        self.place_in(block, 0, self.next)
    }

    // The same among those from one place up to another.
    fn place_in(&self, block: &Block, from: usize, to: usize) -> Option<usize>
        requires { to ≤ length self.now.items.now }
        ensures some { IfSome result (λ place. (place < length self.now.items.now) × ((d : Block) → get_or self.now.items.now place d ≡ block.now)) }
        ensures none { IfNone result ((k : ℕ) (d : Block) → from ≤ k → k < to → get_or self.now.items.now k d ≢ block.now) }
    {
        let mut place = from;
        while place < to {
            if self.items[place] == *block {
                return Some(place);
            }
            place += 1;
        }
        None
    }
}

// As many marks as there may be items, none of which is set.
fn no_marks() -> [bool; MOST_ITEMS]
    ensures { result ≡ replicate MOST_ITEMS false }
{
    [false; MOST_ITEMS]
}

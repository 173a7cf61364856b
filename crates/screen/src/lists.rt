//! Lists that scroll.
ghost use Rattle.std.specs.Prelude.{◌≡◌, ◌⊎◌, ◌+◌, ◌-◌, ◌<◌, ◌≤◌, IfSome};
ghost use Rattle.screen.specs.Scrolls.{Becomes, InSight, IsFull, MovesTo, chosen_of, entry_at, limited, page};

use std::marker::Model;

/// A list in some rows of a screen: which of its entries is chosen, and which ones are in sight. The chosen one always is, and no row is
/// empty as long as an entry above is out of sight. It scrolls no further than it must.
///
/// ```
/// let mut list = ListState::new(100, 24);
/// list.down();
/// assert_eq!(rt; list.chosen(), Some(1));
/// ```
#[derive(Clone, Copy, PartialEq, Eq, Debug)]
pub struct ListState {
    count: usize,
    height: u16,
    chosen: usize,
    top: usize,
}

impl Model for ListState {
    ghost use Rattle.std.specs.Prelude.{◌≡◌, ◌⊎◌, ◌<◌};
    ghost use Rattle.screen.specs.Scrolls.{InSight, IsFull, Scroll};

    ghost Value = { Scroll };

    ghost view = { λ l. record { count = l.count; height = l.height; chosen = l.chosen; top = l.top } };

    ghost inverse = { λ s. record { count = s.count; height = s.height; chosen = s.chosen; top = s.top } };

    ghost invariant = { λ l. (((l.count ≡ 0) × (l.chosen ≡ 0)) ⊎ (l.chosen < l.count)) × InSight l.height l.top l.chosen × IsFull l.count l.height l.top };
}

/// The entry, or the last one if there is no such.
fn limited(count: usize, at: usize) -> usize
    ensures { result ≡ limited count at }
{
    at.min(count.saturating_sub(1))
}

/// How many entries are a page.
fn page(height: u16) -> usize
    ensures { result ≡ page height }
{
    usize::from(height.max(1))
}

/// The first row's entry, moved no further than it must be for another one to be in sight and no row to be empty.
fn moved(count: usize, height: u16, top: usize, at: usize) -> usize
    requires { ((count ≡ 0) × (at ≡ 0)) ⊎ (at < count) }
    ensures { MovesTo count height at top result }
{
    let least = at.saturating_sub(usize::from(height.saturating_sub(1)));
    let most = at.min(count.saturating_sub(usize::from(height)));
    top.max(least).min(most)
}

impl ListState {
    /// A list of so many entries in so many rows. The first entry is chosen, if there is any.
    pub fn new(count: usize, height: u16) -> ListState
        ensures { result ≡ record { count = count; height = height; chosen = 0; top = 0 } }
    {
        ListState {
            count,
            height,
            chosen: 0,
            top: 0,
        }
    }

    /// How many entries there are.
    pub fn count(&self) -> usize
        ensures { result ≡ self.now.count }
    {
        self.count
    }

    /// How many rows there are.
    pub fn height(&self) -> u16
        ensures { result ≡ self.now.height }
    {
        self.height
    }

    /// The chosen entry, from 0, and `None` if there are no entries.
    pub fn chosen(&self) -> Option<usize>
        ensures chosen { result ≡ chosen_of self.now }
        ensures sight { IfSome result (λ at. (at < self.now.count) × InSight self.now.height self.now.top at) }
        ensures full { IsFull self.now.count self.now.height self.now.top }
    {
        if self.count == 0 {
            return None;
        }
        Some(self.chosen)
    }

    /// The entry in a row of the list, from 0, and `None` if there is none.
    pub fn entry_at(&self, row: u16) -> Option<usize>
        ensures { result ≡ entry_at self.now row }
    {
        if row >= self.height
            || self.top >= self.count
            || usize::from(row) >= self.count - self.top
        {
            return None;
        }
        Some(self.top + usize::from(row))
    }

    /// Takes a size and a choice.
    fn change(&mut self, count: usize, height: u16, at: usize)
        ensures { Becomes self.old count height at self.new }
    {
        let chosen = limited(count, at);
        *self = ListState {
            count,
            height,
            chosen,
            top: moved(count, height, self.top, chosen),
        };
    }

    /// Chooses an entry, or the last one if there is no such.
    pub fn choose(&mut self, at: usize)
        ensures { Becomes self.old self.old.count self.old.height at self.new }
    {
        self.change(self.count, self.height, at);
    }

    /// Chooses the entry before, if there is one.
    pub fn up(&mut self)
        ensures { Becomes self.old self.old.count self.old.height (self.old.chosen - 1) self.new }
    {
        self.choose(self.chosen.saturating_sub(1));
    }

    /// Chooses the next entry, if there is one.
    pub fn down(&mut self)
        ensures { Becomes self.old self.old.count self.old.height (self.old.chosen + 1) self.new }
    {
        self.choose(self.chosen.saturating_add(1));
    }

    /// Chooses the entry a page before, or the first one if there is none: as many entries before as there are rows, and one if there is no row.
    ///
    /// ```
    /// let mut list = ListState::new(100, 24);
    /// list.page_down();
    /// assert_eq!(rt; list.chosen(), Some(24));
    /// list.page_up();
    /// assert_eq!(rt; list.chosen(), Some(0));
    /// ```
    pub fn page_up(&mut self)
        ensures { Becomes self.old self.old.count self.old.height (self.old.chosen - page self.old.height) self.new }
    {
        self.choose(self.chosen.saturating_sub(page(self.height)));
    }

    /// Chooses the entry a page behind, or the last one if there is none: as many entries behind as there are rows, and one if there is no row.
    pub fn page_down(&mut self)
        ensures { Becomes self.old self.old.count self.old.height (self.old.chosen + page self.old.height) self.new }
    {
        self.choose(self.chosen.saturating_add(page(self.height)));
    }

    /// Chooses the first entry.
    pub fn first(&mut self)
        ensures { Becomes self.old self.old.count self.old.height 0 self.new }
    {
        self.choose(0);
    }

    /// Chooses the last entry.
    pub fn last(&mut self)
        ensures { Becomes self.old self.old.count self.old.height (self.old.count - 1) self.new }
    {
        self.choose(self.count.saturating_sub(1));
    }

    /// Takes another number of entries, as when some were added, and of rows, as when the terminal has another size. The choice stays, or
    /// becomes the last entry if there is no such.
    pub fn resize(&mut self, count: usize, height: u16)
        ensures { Becomes self.old count height self.old.chosen self.new }
    {
        self.change(count, height, self.chosen);
    }
}

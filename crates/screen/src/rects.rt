//! Rectangles of columns and rows.
ghost use Rattle.std.specs.Prelude.{◌≡◌, ◌+◌, ◌↔◌, ◌<◌, ℕ, IsTrue};
ghost use Rattle.screen.specs.Rects.{Has, HasWithin, OneHas, front, inner, rest, shared};

/// A rectangle of columns and rows, by the first ones, from 0, and their numbers. It may go beyond a buffer.
///
/// ```
/// let area = buffer.area();
/// buffer.border(area, Border::PLAIN, ContentStyle::new())?;
/// let list = area.inner(1, 1);
/// ```
#[derive(Clone, Copy, PartialEq, Eq, Debug)]
pub struct Rect {
    /// The first column.
    pub x: u16,
    /// The first row.
    pub y: u16,
    /// How many columns there are.
    pub width: u16,
    /// How many rows there are.
    pub height: u16,
}

/// The first of some columns or rows, and their number.
type Span = (u16, u16);

/// The first one behind them.
fn end(span: Span) -> u32
    ensures { result ≡ span.0 + span.1 }
{
    u32::from(span.0) + u32::from(span.1)
}

/// What two have in common.
fn shared(one: Span, other: Span) -> Span
    ensures { result ≡ shared one other }
{
    let start = if one.0 < other.0 { other.0 } else { one.0 };
    let first = end(one);
    let second = end(other);
    let last = if first < second { first } else { second };
    if last < u32::from(start) {
        return (start, 0);
    }
    (start, (last - u32::from(start)) as u16)
}

/// What is left without a margin at both ends.
fn inner(span: Span, margin: u16) -> Span
    ensures { result ≡ inner span margin }
{
    let both = u32::from(margin) * 2;
    let start = end((span.0, margin));
    if both < u32::from(span.1) && start < 65536 {
        return (start as u16, (u32::from(span.1) - both) as u16);
    }
    (span.0, 0)
}

/// The first ones, so many or all if there are fewer.
fn front(span: Span, count: u16) -> Span
    ensures { result ≡ front span count }
{
    (span.0, if count < span.1 { count } else { span.1 })
}

/// What is behind these.
fn rest(span: Span, count: u16) -> Span
    ensures { result ≡ rest span count }
{
    let (first, taken) = front(span, count);
    let start = end((first, taken));
    if start < 65536 {
        return (start as u16, span.1 - taken);
    }
    (first, 0)
}

impl Rect {
    /// A rectangle by its first column and row, and the numbers of its columns and rows.
    ///
    /// ```
    /// let footer = Rect::new(0, 23, 80, 1);
    /// ```
    pub const fn new(x: u16, y: u16, width: u16, height: u16) -> Rect
        ensures { result ≡ record { x = x; y = y; width = width; height = height } }
    {
        Rect {
            x,
            y,
            width,
            height,
        }
    }

    /// Whether it has a column and a row.
    pub fn contains(self, column: u16, row: u16) -> bool
        ensures { IsTrue result ↔ Has self column row }
    {
        if column < self.x || row < self.y {
            return false;
        }
        u32::from(column) < end((self.x, self.width)) && u32::from(row) < end((self.y, self.height))
    }

    /// What two rectangles have in common. If they have nothing in common, its width or its height is 0.
    pub fn intersection(self, other: Rect) -> Rect
        ensures places { (column row : ℕ) → Has result column row ↔ (Has self column row × Has other column row) }
        ensures columns { (result.x, result.width) ≡ shared (self.x, self.width) (other.x, other.width) }
        ensures rows { (result.y, result.height) ≡ shared (self.y, self.height) (other.y, other.height) }
    {
        let (x, width) = shared((self.x, self.width), (other.x, other.width));
        let (y, height) = shared((self.y, self.height), (other.y, other.height));
        Rect {
            x,
            y,
            width,
            height,
        }
    }

    /// What is left without a margin: so many columns on the left and on the right, and so many rows above and below. If nothing is left,
    /// or it begins behind 65535, the width or the height is 0.
    pub fn inner(self, horizontal: u16, vertical: u16) -> Rect
        ensures places { (column row : ℕ) → column < 65536 → row < 65536 → Has result column row ↔ HasWithin self horizontal vertical column row }
        ensures columns { (result.x, result.width) ≡ inner (self.x, self.width) horizontal }
        ensures rows { (result.y, result.height) ≡ inner (self.y, self.height) vertical }
    {
        let (x, width) = inner((self.x, self.width), horizontal);
        let (y, height) = inner((self.y, self.height), vertical);
        Rect {
            x,
            y,
            width,
            height,
        }
    }

    /// The first columns, so many or all if it has fewer, and the others. If the others begin behind 65535, their width is 0.
    ///
    /// ```
    /// let (names, sizes) = buffer.area().split_columns(20);
    /// ```
    pub fn split_columns(self, at: u16) -> (Rect, Rect)
        ensures places { (column row : ℕ) → column < 65536 → Has self column row ↔ OneHas result.0 result.1 column row }
        ensures front { (result.0.x, result.0.width) ≡ front (self.x, self.width) at }
        ensures rest { (result.1.x, result.1.width) ≡ rest (self.x, self.width) at }
        ensures rows { (result.0.y ≡ self.y) × (result.0.height ≡ self.height) × (result.1.y ≡ self.y) × (result.1.height ≡ self.height) }
    {
        let (first, columns) = front((self.x, self.width), at);
        let (next, others) = rest((self.x, self.width), at);
        (
            Rect::new(first, self.y, columns, self.height),
            Rect::new(next, self.y, others, self.height),
        )
    }

    /// The first rows, so many or all if it has fewer, and the others. If the others begin behind 65535, their height is 0.
    ///
    /// ```
    /// let (title, list) = buffer.area().split_rows(1);
    /// ```
    pub fn split_rows(self, at: u16) -> (Rect, Rect)
        ensures places { (column row : ℕ) → row < 65536 → Has self column row ↔ OneHas result.0 result.1 column row }
        ensures front { (result.0.y, result.0.height) ≡ front (self.y, self.height) at }
        ensures rest { (result.1.y, result.1.height) ≡ rest (self.y, self.height) at }
        ensures columns { (result.0.x ≡ self.x) × (result.0.width ≡ self.width) × (result.1.x ≡ self.x) × (result.1.width ≡ self.width) }
    {
        let (first, rows) = front((self.y, self.height), at);
        let (next, others) = rest((self.y, self.height), at);
        (
            Rect::new(self.x, first, self.width, rows),
            Rect::new(self.x, next, self.width, others),
        )
    }
}

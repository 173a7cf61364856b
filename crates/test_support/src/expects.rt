//! What the tests of every crate expect by: one macro, and texts.

ghost use Rattle.std.specs.Prelude.{◌≡◌, ◌↔◌, IsTrue, IsOkAnd};

/// Fails a test if something doesn't hold, and says what: `expect!(rt; size > 0)`, or `expect!(rt; size > 0, "a size")` in other words.
///
/// It makes one call, without a branch and without a text formatted in the test itself: a test's proof grows with both.
///
/// ```
/// expect!(rt; key.is_press(), name)
/// ```
#[macro_export]
macro_rules! expect {
    ($rt:expr; $holds:expr) => {
        $crate::expect!($rt; $holds, stringify!($holds))
    };
    ($rt:expr; $holds:expr, $what:expr) => {
        ($holds).then_some(()).expect(&$rt, $what)
    };
}

/// Whether a text was made, and is this one.
pub fn is_text<E: Drop>(made: Result<String, E>, want: &str) -> bool
    ensures { IsTrue result ↔ IsOkAnd made (λ text. text.bytes.items ≡ want.now) }
{
    match made {
        Ok(text) => text.as_str() == want,
        Err(_) => false,
    }
}

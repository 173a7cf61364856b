//! Sequences as literals, and several commands at once.

/// A literal control sequence: `ESC [` and the parts after it (ECMA-48, 5.4).
#[macro_export]
macro_rules! csi {
    ($($part:expr),*) => {
        concat!("\x1b[", $($part),*)
    };
}

/// A literal operating system command: `ESC ]`, the parts after it, and `ESC \` (ECMA-48, 8.3.89).
#[macro_export]
macro_rules! osc {
    ($($part:expr),*) => {
        concat!("\x1b]", $($part,)* "\x1b\\")
    };
}

/// Queues commands on a writer, in order: `queue!(writer, colors, MoveTo(0, 0), Print("x"))`.
///
/// It gives an `io::Result<()>`. The commands are written as one, so that its contract is that of `queue_command` at their texts in a row:
/// the first that fails by itself stops the rest, and after a fault of the writer nothing more is written. Without a command nothing is
/// written. The writer is a `W` or a `&mut W`, and `QueueableCommand` has to be in scope. The second argument is a `ColorOutput`: a command
/// in its place, as in `queue!(writer, MoveTo(0, 0))`, doesn't compile.
///
/// ```
/// queue!(w, colors, Clear(ClearType::All), Print("ab"))
/// ```
#[macro_export]
macro_rules! queue {
    ($writer:expr, $colors:expr $(,)?) => {
        match ($writer.as_writer(), $colors) {
            (writer, colors) => {
                let _ = writer;
                let _: $crate::style::ColorOutput = colors;
                Ok::<(), std::io::Error>(())
            }
        }
    };
    ($writer:expr, $colors:expr $(, $command:expr)+ $(,)?) => {
        $writer.queue_row($colors, &$crate::in_a_row!($($command),+))
    };
}

/// Queues commands on a writer as `queue!` does, and then flushes it.
///
/// A command that fails stops the flush too. Without a command the writer is flushed.
///
/// ```
/// execute!(w, colors, SetForegroundColor(color), Print(text), ResetColor)
/// ```
#[macro_export]
macro_rules! execute {
    ($writer:expr, $colors:expr $(,)?) => {
        match ($writer.as_writer(), $colors) {
            (writer, colors) => {
                let _: $crate::style::ColorOutput = colors;
                std::io::Write::flush(writer)
            }
        }
    };
    ($writer:expr, $colors:expr $(, $command:expr)+ $(,)?) => {
        $writer.execute_row($colors, &$crate::in_a_row!($($command),+))
    };
}

/// Some commands as one: what `queue!` and `execute!` write.
#[macro_export]
macro_rules! in_a_row {
    ($command:expr) => {
        $command
    };
    ($command:expr $(, $more:expr)+) => {
        ($command, $crate::in_a_row!($($more),+))
    };
}

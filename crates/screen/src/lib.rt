//! A screen above crossterm: a program fills a `Buffer`, and `Screen::draw` writes what makes the terminal show it.
//!
//! Cells that changed are written, and others only if that is shorter than a move over them: up to three letters of ASCII without marks, in
//! the style that is set. Neighbours are written without a move between them, and a style only if it is another than before. Each frame is one
//! synchronized update.
//!
//! ```
//! let mut buffer = Buffer::new(alloc, 80, 24)?;
//! let mut screen = Screen::new(alloc, 80, 24)?;
//! buffer.set(2, 1, 'x', ContentStyle::new())?;
//! screen.draw(w, ColorOutput::Enabled, &buffer, None)?;
//! ```
//!
//! The promise, for each terminal that does what `specs/Grids.antt` says and has the widths of the crate `unicode_width`: take any grid of
//! the screen's size that shows the buffer that was drawn last, with any cursor and any style. What `draw` writes leads from it to a grid
//! that shows the new buffer cell for cell. Its cursor is at the place that was asked for. At the beginning, after `resize`,
//! `forget` and an error nothing is known of the cells, and the same holds for every grid of the size.
//!
//! A `Strip` is one row of a terminal, the one in which the cursor is. Its frames say columns alone, so that a line editor draws without asking
//! which row it is. The promise is for terminals with more columns than the strip has: from each grid whose row shows what was drawn last, what
//! `draw` writes leads to one whose row shows the buffer, and is blank behind it. All other cells stay.
//!
//! Who draws alone calls `Strip::draw_next`, which makes the same promise if nothing was written since the last frame: then the cursor is still
//! shown in the column in which that left it, and the plain style is set. Such a frame has no move, no style and no other control function that
//! it doesn't need, so that a letter or a blank that is typed at a line's end is one byte, and a frame without a change is empty.
//!
//! A `Block` is some rows of a terminal, from the one in which the cursor is at first: for a prompt, a menu or a bar that shows progress below what
//! is there. It grows downward, and below the window's last row the terminal scrolls. The promise is for terminals with more columns than the block has
//! and at least as many rows: from each grid in which the block's rows show what was drawn last, wherever they are, what `Block::draw` writes leads
//! to one in which they show the buffer. The rows above stay as they are, or move up by as many rows as had no room below.
//!
//! A character of a buffer takes one column or two. One of two columns has two cells: its own, and behind it a covered one with the character 0
//! and the same style. Both are in one row. What is written over one of the two leaves a space in the other, in the style that it had.
//!
//! A cell also holds up to three marks: characters of no column that UAX 29 keeps with the one before, such as accents, vowel signs, points and
//! the vowels and finals of Hangul. A terminal adds a mark to the character that it printed last, if nothing came between.
//!
//! What no cell can hold is refused by name (`CellFault`): control characters, those of more than two columns, those of no column that aren't
//! marks of a character before them, a character with more marks, and those that some terminals join with their neighbours (joiners, selectors
//! of text and emoji, letters of flags, skin tones, tags). `Buffer::print_replacing` replaces it, and `Buffer::print_without_marks` leaves out
//! all characters of no column.
//!
//! A `Rect` is some columns and rows: `Buffer::print_in` aligns a text in one, `Buffer::border` draws lines round it, and `Buffer::set_style` and
//! `Buffer::fill_area` change all of it. A `ListState` says which entries of a list are in sight.
//!
//! A `Paragraph` wraps texts in their styles into rows, for what is longer than a row or a window, as a help page or a message.
//! `Paragraph::show` makes a buffer show some of these rows, from any one on, so that a program scrolls.
//!
//! If a frame broke off within a control sequence, the next one begins with ESC, which ends such a sequence at a terminal. The definitions
//! speak of whole sequences and don't say so.
//!
//! A `Cell` has 32 bytes. A frame compares cells by words, and copies those that changed.
//!
//! `new` and `resize` take memory, and a block's `draw` does for rows that it adds. Else `draw` needs none: it gathers a frame in 4,096 bytes on the stack, and gives them to the writer as they fill.
//!
//! What is proved, beyond safety:
//!
//! | Proved | By the contract of |
//! |---|---|
//! | a frame shows the buffer (the fourth theorem): it leads from each grid that shows the last one to a grid that shows this one, with the cursor at the place that was asked for, and prints the characters of each cell that differs, marks included, and no others but a few in place of moves | `Screen::draw` |
//! | a frame is one synchronized update; it has at most one move for each run of characters side by side, or in place of the move at most three characters that are shown already, one setting of the style for each run of characters in one style, and a handful at its ends | `Screen::draw` |
//! | a screen has as much memory after a frame as before; screens and buffers give none back, and a size that they have memory for isn't refused | `Screen::{draw, new, resize}`, `Buffer::{new, resize, fill, set, print, print_replacing, print_without_marks, print_in, border, set_style, fill_area}`, `Paragraph::show` |
//! | a wrong size or place writes nothing and changes nothing; at any other error a beginning of the frame was written and nothing else, and nothing is known of the cells | `Screen::draw` |
//! | a frame of a strip turns the cursor's row into the buffer's, wherever it is, and nothing else; it is a frame of a screen of one row with CHA for CUP, and CHA and EL for ED, and is refused as such a frame | `Strip::draw` |
//! | a frame right behind the last one of a strip relies on the cursor's column after that: it prints the cells that differ, moves only to one that isn't right behind the one before it, or prints at most three again in place of that, sets a style only if it changes, and writes nothing else. If the cells or that column aren't known, it is a frame as of `draw` | `Strip::draw_next` |
//! | a strip has as much memory after a frame as before; it gives none back, and a width that it has memory for isn't refused | `Strip::{new, resize, draw}` |
//! | a frame of a block turns its rows into the buffer's, wherever they are: the rows above are as they were or moved up by as many as had no room, and those below stay; with the cursor at the place that was asked for | `Block::{draw, draw_next}` |
//! | it visits the rows in which cells change, each by a frame of the strip there, and moves by CUU, CUD and CHA alone; a row is added by CR, LF and EL; right behind the last frame nothing else is written | `Block::{draw, draw_next}` |
//! | a wrong size or place, and memory that is refused, write nothing, and what the rows show is known as before; memory is refused for more rows alone than there is memory for; at any other error a beginning of the frame was written and nothing else, and the block has no rows then | `Block::{draw, draw_next}` |
//! | a character that no cell can hold is refused by name, `set` refuses one of two in a row's last column too, and a refusal changes nothing | `Buffer::{fill, set, print, print_replacing, print_without_marks, print_in, border}` |
//! | a cell has the character and the style that it was made of, each colour and attribute of it, and its marks in their order | `Cell::{new, symbol, marks, style}`, `Marks::{len, is_empty, get, fmt}` |
//! | no half of a character of two columns is alone: what loses its other half is a space in the style that it had | `Buffer::{cells, fill, set, print, print_replacing, print_without_marks, print_in, border, set_style, fill_area}` |
//! | of a text as many characters are printed, each with its marks, as have room in the row, and the number of the columns that they took is returned | `Buffer::{print, print_replacing, print_without_marks}` |
//! | of any text, each character that no cell can hold is replaced, with its marks, by a given one | `Buffer::print_replacing` |
//! | of a text, the characters of no column are left out, and the others are printed or refused as in `print` | `Buffer::print_without_marks` |
//! | texts are wrapped: each character, with its marks and in its text's style, is in the last row if that has room, else in the next one, and left out if no row has room; a line feed ends a row, and what no cell can hold becomes U+FFFD; a buffer shows these rows from any one on, with blanks behind the last; refused memory changes nothing | `Paragraph::{push, show}` |
//! | a text in a row of a rectangle is aligned by the columns that it takes, and has as many characters as have room in the columns that the buffer has of it | `Buffer::print_in` |
//! | a border is four corners and the lines between them, and what isn't under them stays, but for halves; it is refused if the rectangle isn't within the buffer, has fewer than two columns or rows, or a character of it doesn't take one column | `Buffer::border` |
//! | a style over a rectangle is the style of each character whose first column is in it, in both of its columns; no character and no other style changes | `Buffer::set_style` |
//! | a rectangle is filled with a character of one column as far as the buffer has it, and what isn't under it stays, but for halves; a character that doesn't take one column is refused by name | `Buffer::fill_area` |
//! | what two rectangles have in common, and what is left of one without a margin, has the columns and rows that it has to have, and no others | `Rect::{contains, intersection, inner}` |
//! | of a rectangle that is split, each column and row is in one of both parts and not in the other one | `Rect::{split_columns, split_rows}` |
//! | the chosen entry of a list is in sight, no row is empty as long as an entry above is out of sight, and the list scrolls no further than it must | `ListState::{choose, up, down, page_up, page_down, first, last, resize}` |
//! | as an `io::Error`, a fault has the kind `InvalidInput`, or `OutOfMemory` if memory was refused; the fault of a command is the error that it becomes by itself | `From<CellFault>` and `From<DrawFault>` of `io::Error` |
//!
//! What to believe, in the order in which it reads (`specs/`), and the contracts that it is proved by:
//!
//! | Definitions | Lines | Of | Contract |
//! |---|---|---|---|
//! | `Marks` | 44 | which characters are marks of the one before them, and which ones terminals join with others | `Marks` |
//! | `Parts` | 14 | the parts of a text: each is a character with its marks | `Buffer::{print, print_replacing, print_in}` |
//! | `Grids` | 253 | a terminal as a grid of cells, and what each token does to it | |
//! | `Cells` | 89 | what a cell is and how it looks, which cells are paired, and which characters fit | `Cell::{new, blank, symbol, style}`, `Buffer::{cells, fill, set}` |
//! | `Overwriting` | 46 | the cells that a character takes, and what becomes of the halves beside them | `Buffer::{set, print, print_replacing, print_without_marks}` |
//! | `Texts` | 62 | the cells of a text's parts, what has room, and what is replaced in it or left out | `Buffer::{print, print_replacing, print_without_marks}` |
//! | `Buffers` | 81 | the pictures that buffers hold | `Buffer` |
//! | `Paragraphs` | 51 | texts that are wrapped, the cells that each part adds, and the picture of some rows | `Paragraph` |
//! | `Rects` | 41 | a rectangle's columns and rows, what two have in common, what is left without a margin, and two parts | `Rect` |
//! | `Alignments` | 39 | how many columns of a rectangle a buffer has, and the one that a text begins in | `Buffer::print_in` |
//! | `Borders` | 70 | the characters of a border, one after another, and when there is none | `Buffer::border` |
//! | `Areas` | 46 | a style over a rectangle, and a character in all places of one | `Buffer::{set_style, fill_area}` |
//! | `Scrolls` | 54 | which entries of a list are in sight, and how far it scrolls | `ListState` |
//! | `Screens` | 18 | a screen, and what it drew last | `Screen` |
//! | `Updates` | 131 | which characters have to be printed, and how few moves and styles do it | `Screen::draw` |
//! | `Drawings` | 146 | what a frame does to each grid, how many characters it prints, and what is refused | `Screen::draw`, `From<DrawFault>` of `io::Error` |
//! | `Strips` | 189 | a strip, how it lies in a grid, what a frame does to its row and with which tokens, and what is refused | `Strip` |
//! | `Blocks` | 209 | a block, how it lies in a grid, what a frame does to its rows and with which tokens, and what is refused | `Block` |
//!
//! `specs/inside/` says the same of a frame's parts, and no public clause cites it.
//!
//! A function's proof is in `proofs/` at the function's path; if there is no file, the prover found it by itself.
#![tactic(auto)]

mod alignment;
mod areas;
mod blocks;
mod borders;
mod bridges;
mod buffers;
mod cells;
mod differences;
mod faults;
mod lists;
mod marks;
mod overwriting;
mod packed;
mod paragraphs;
mod parts;
mod pens;
mod planning;
mod rects;
mod screens;
mod settings;
mod starts;
mod steps;
mod strips;
mod strokes;
mod texts;
mod walking;

pub use alignment::Alignment;
pub use blocks::Block;
pub use borders::Border;
pub use buffers::Buffer;
pub use cells::Cell;
pub use faults::{CellFault, DrawFault};
pub use lists::ListState;
pub use marks::Marks;
pub use paragraphs::Paragraph;
pub use rects::Rect;
pub use screens::Screen;
pub use strips::Strip;

// The cells of a table's lines, put where room is known to be.
ghost use Rattle.std.specs.Prelude.{◌≡◌, false, [], ◌∷◌, ◌+◌, ◌*◌, ◌≤◌, ◌<◌, max, length, take, drop, replicate};
ghost use Rattle.tables.specs.Puts.{PutsTo, bar, bars};
ghost use Rattle.tables.specs.Columns.{column};

use text::text::Text;

// Puts a byte.
pub fn put_byte(text: &mut Text, b: u8)
    requires { text.old.len < length text.old.room.now }
    ensures { PutsTo text.old text.new (b ∷ []) }
{
    text.room[text.len] = b;
    text.len += 1;
}

// Puts the n bytes at `src`, which is not before the text's end, by a loop: `copy_within` would want `memmove` from the host.
fn put_from(text: &mut Text, src: usize, n: usize)
    requires { (text.old.len ≤ src) × (src + n ≤ length text.old.room.now) }
    ensures { PutsTo text.old text.new (take n (drop src text.old.room.now)) }
{
    let room = &mut text.room[text.len..];
    let from = src - text.len;
    for i in 0..n {
        room[i] = room[from + i];
    }
    text.len += n;
}

// Puts n times b.
fn put_repeated(text: &mut Text, b: u8, n: usize)
    requires { text.old.len + n ≤ length text.old.room.now }
    ensures { PutsTo text.old text.new (replicate n b) }
{
    let end = text.len + n;
    text.room[text.len..end].fill(b);
    text.len = end;
}

// Puts what ends a cell.
fn put_bar(text: &mut Text)
    requires { text.old.len + 2 ≤ length text.old.room.now }
    ensures { PutsTo text.old text.new (32 ∷ 124 ∷ []) }
{
    put_byte(text, b' ');
    put_byte(text, b'|');
}

// Puts a cell with the n bytes at `src`.
fn put_cell(text: &mut Text, src: usize, n: usize)
    requires { (text.old.len < src) × (text.old.len + n + 3 ≤ length text.old.room.now) × (src + n ≤ length text.old.room.now) }
    ensures { PutsTo text.old text.new (bar (take n (drop src text.old.room.now))) }
{
    put_byte(text, b' ');
    put_from(text, src, n);
    put_bar(text);
}

pub fn at_least_one(n: usize) -> usize
    ensures { result ≡ max n 1 }
{
    n.max(1)
}

// Puts hyphens under a heading of n bytes.
fn put_hyphens(text: &mut Text, n: usize)
    requires { text.old.len + max n 1 + 3 ≤ length text.old.room.now }
    ensures { PutsTo text.old text.new (bar (replicate (max n 1) 45)) }
{
    put_byte(text, b' ');
    put_repeated(text, b'-', at_least_one(n));
    put_bar(text);
}

// Puts the cell of a column: hyphens under a heading of n bytes where `under`, else the n bytes at `src`.
pub fn put_column(text: &mut Text, src: usize, n: usize, under: bool)
    requires { (under ≡ false → text.old.len < src) × (text.old.len + length (column under n (drop src text.old.room.now)) + 3 ≤ length text.old.room.now) × (src + n ≤ length text.old.room.now) }
    ensures { PutsTo text.old text.new (bar (column under n (drop src text.old.room.now))) }
{
    if under {
        put_hyphens(text, n);
    } else {
        put_cell(text, src, n);
    }
}

// Puts a cell of one byte.
fn put_byte_cell(text: &mut Text, b: u8)
    requires { text.old.len + 4 ≤ length text.old.room.now }
    ensures { PutsTo text.old text.new (bar (b ∷ [])) }
{
    put_byte(text, b' ');
    put_byte(text, b);
    put_bar(text);
}

// Puts so many cells of one byte.
pub fn put_byte_cells(text: &mut Text, b: u8, count: usize)
    requires { text.old.len + 4 * count ≤ length text.old.room.now }
    ensures { PutsTo text.old text.new (bars (replicate count (b ∷ []))) }
{
    for _ in 0..count {
        put_byte_cell(text, b);
    }
}

// The stored list of calls: for each a head, the bytes of a skip list and of an attribute name, and the pieces of a sheet, each to be
// repeated some number of times.
ghost use Rattle.std.specs.Prelude.{◌+◌, ◌≤◌, ◌<◌, length, IfSome};

use tree::memory::read;

// The length of a call's head, and where it has its parts: whether the skip list is an own one, the lengths of the skip list and of
// the attribute name, the start node, the bytes of node memory, and how many pieces there are.
const HEAD: usize = 15;

const OWN: usize = 0;

const RUN: usize = 1;

const NAME: usize = 3;

const START: usize = 5;

const MEMORY: usize = 9;

const PIECES: usize = 13;

// The length of a piece's head: the number of times, and the piece's length.
const PIECE_HEAD: usize = 6;

const TIMES: usize = 0;

const LENGTH: usize = 4;

// A call but for its sheet.
#[derive(Clone, Copy)]
pub struct Call<'a> {
    pub skip: Option<&'a [u8]>,
    pub name: &'a [u8],
    pub start: usize,
    pub memory: usize,
    pub pieces: usize,
}

// The call at the front of the input, and what stands behind it.
pub fn read_call(input: &[u8]) -> Option<(Call<'_>, &[u8])>
    ensures { IfSome result (λ r. length r.1.now < length input.now) }
{
    let (head, rest) = input.split_at_checked(HEAD)?;
    let (run, rest) = rest.split_at_checked(read::<2>(head, RUN))?;
    let (name, rest) = rest.split_at_checked(read::<2>(head, NAME))?;
    let call = Call {
        skip: (head[OWN] == 1).then_some(run),
        name,
        start: read::<4>(head, START),
        memory: read::<4>(head, MEMORY),
        pieces: read::<2>(head, PIECES),
    };
    Some((call, rest))
}

// How often the piece at the front of the input comes, the piece, and what stands behind it.
fn read_piece(input: &[u8]) -> Option<(usize, &[u8], &[u8])>
    ensures { IfSome result (λ r. length r.2.now ≤ length input.now) }
{
    let (head, rest) = input.split_at_checked(PIECE_HEAD)?;
    let (piece, rest) = rest.split_at_checked(read::<2>(head, LENGTH))?;
    Some((read::<4>(head, TIMES), piece, rest))
}

// Appends a piece so many times to a sheet of len bytes, as far as there is room. What is there is copied behind itself and so
// doubles with each copy: a short piece that comes often takes few copies.
fn append(piece: &[u8], times: usize, sheet: &mut [u8], len: usize) -> usize
    requires { len ≤ length sheet.old }
    ensures { result ≤ length sheet.old }
{
    let n = piece.len().saturating_mul(times).min(sheet.len() - len);
    let added = &mut sheet[len..len + n];
    let mut filled = piece.len().min(n);
    added[..filled].copy_from_slice(&piece[..filled]);
    while filled < n {
        let more = filled.min(n - filled);
        added.copy_within(..more, filled);
        filled += more;
    }
    len + n
}

// How long a sheet is, and what stands behind its pieces in the input.
#[derive(Clone, Copy)]
pub struct Built<'a> {
    pub len: usize,
    pub rest: &'a [u8],
}

// The sheet whose pieces stand at the front of the input; nothing is left behind pieces that the input cuts off.
pub fn build_sheet<'a>(input: &'a [u8], pieces: usize, sheet: &mut [u8]) -> Built<'a>
    ensures { (length result.rest.now ≤ length input.now) × (result.len ≤ length sheet.new) }
{
    let mut rest = input;
    let mut len = 0;
    for _ in 0..pieces {
        let Some((times, piece, behind)) = read_piece(rest) else {
            return Built { len, rest: b"" };
        };
        len = append(piece, times, sheet, len);
        rest = behind;
    }
    Built { len, rest }
}

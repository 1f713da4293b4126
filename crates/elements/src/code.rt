// write_code of elements/code.rs.
ghost use Rattle.std.specs.Prelude.{◌≡◌, cond, List, [], ℕ, ◌+◌, ◌≤◌, length, take, drop};
ghost use Rattle.spec.specs.Bytes.{Bytes, ascii, isin, one, starts_with, ends_with, blank, white_width, trim_from, trim, trim_start_matches, trim_end_matches};
ghost use Rattle.spec.specs.Call.{tags_to_skip};
ghost use Rattle.spec.specs.Tree.{Attr, Forest, nothing, element, text_of};
ghost use Rattle.spec.specs.Md.MDSerializer.{Ancestors};
ghost use Rattle.spec.specs.Md.Serializer.{serializer};
ghost use Rattle.spec.specs.Md.TextUtils.{trim_blanks};
ghost use Rattle.spec.specs.Md.Elements.Code as def;
ghost use Rattle.tree.specs.Memory.{parent_at};
ghost use Rattle.tree.specs.Represents.{Rep, Around};
ghost use Rattle.input.specs.Scans.{skip_of};
ghost use Rattle.text.specs.Trimmed.{Trimmed, Skipped};
ghost use Rattle.text.specs.Texts.{WritesTo};
ghost use Rattle.text.specs.Writes.{Writes};
ghost use Rattle.elements.specs.Edges.{ended_by};
ghost use Rattle.nodes.specs.Stands.{Siblings, ElementAt, SomeElement, Placed};

use crate::pre::write_pre;
use marks::code::push_code_text;
use nodes::skip_md::write_skip_md;
use spec::ctx::FormatOpts;
use text::buffer::{
    Full, Wrote, contains_byte, ends_with_byte, trim_end_matches, trim_start_matches,
};
use text::class::{Blank, TabOrBlank};
use text::text::Text;
use text::white_space::{is_white_space_1, is_white_space_2, is_white_space_3, trim_end};
use tree::nodes::Tree;

// How many bytes the White_Space character has that begins s; 0 where none does.
#[tactic(auto, using(crate::proofs::WhiteStarts::width_one, crate::proofs::WhiteStarts::width_two, crate::proofs::WhiteStarts::width_three, crate::proofs::WhiteStarts::width_none))]
fn white_width(s: &[u8]) -> usize
    ensures { result ≡ white_width s.now }
{
    match s {
        [a, ..] if is_white_space_1(*a) => 1,
        [a, b, ..] if is_white_space_2(*a, *b) => 2,
        [a, b, c, ..] if is_white_space_3(*a, *b, *c) => 3,
        _ => 0,
    }
}

// s without the White_Space at its front. A `loop`, since a character has one byte to three.
fn trim_start(s: &[u8]) -> &[u8]
    ensures { result.now ≡ trim_from 0 s.now }
{
    let mut rest = s;
    loop {
        let n = white_width(rest);
        if n == 0 {
            return rest;
        }
        rest = &rest[n..];
    }
}

// Whether s holds LF between other characters than White_Space.
#[tactic(auto, unfolding(spec::specs::Bytes::trim))]
fn is_multiline_text(s: &[u8]) -> bool
    ensures { result ≡ isin 10 (trim s.now) }
{
    contains_byte(trim_start(&s[..trim_end(s)]), b'\n')
}

// Whether some text of the nodes from number `from` up to `to` does.
fn is_multiline(tree: &Tree, from: usize, to: usize) -> bool
    requires { Siblings tree.now.sheet.now tree.now.nodes.now from to }
    ensures { (parent : ℕ) (f : Forest) → Rep tree.now.sheet.now tree.now.nodes.now parent from to f → result ≡ def.is_multiline f }
{
    for i in from..to {
        if is_multiline_text(tree.field(i).text()) {
            return true;
        }
    }
    false
}

// Whether the texts of those nodes begin with LF, but for tabs and blanks.
fn begins_line(tree: &Tree, from: usize, to: usize) -> bool
    requires { Siblings tree.now.sheet.now tree.now.nodes.now from to }
    ensures { (parent : ℕ) (f : Forest) → Rep tree.now.sheet.now tree.now.nodes.now parent from to f → result ≡ starts_with (ascii "\n") (trim_start_matches def.is_tab_or_blank (text_of f)) }
{
    for i in from..to {
        let part = tree.field(i).text();
        if let [first, ..] = &part[trim_start_matches::<TabOrBlank>(part)..] {
            return *first == b'\n';
        }
    }
    false
}

// Whether a text that ends with s ends with LF, but for tabs and blanks; `before` says it of what stands before s.
#[tactic(auto, using(crate::proofs::Edges::ended_nothing, crate::proofs::Edges::ended_here))]
fn ended_by(s: &[u8], before: bool) -> bool
    ensures { result ≡ ended_by before s.now }
{
    let front = &s[..trim_end_matches::<TabOrBlank>(s)];
    if front.is_empty() {
        return before;
    }
    ends_with_byte(front, b'\n')
}

// Whether the texts of those nodes end so.
fn ends_line(tree: &Tree, from: usize, to: usize) -> bool
    requires { Siblings tree.now.sheet.now tree.now.nodes.now from to }
    ensures { (parent : ℕ) (f : Forest) → Rep tree.now.sheet.now tree.now.nodes.now parent from to f → result ≡ ends_with (ascii "\n") (trim_end_matches (one def.is_tab_or_blank) (text_of f)) }
{
    let mut ended = false;
    for i in from..to {
        ended = ended_by(tree.field(i).text(), ended);
    }
    ended
}

// How long the code is without the blanks at its end, if they are no content.
#[tactic(auto, unfolding(spec::specs::Md::TextUtils::trim_blanks))]
fn code_end(s: &[u8], ended: bool) -> usize
    ensures { Trimmed s.now result (cond ended (trim_blanks s.now) s.now) }
{
    if ended {
        return trim_end_matches::<Blank>(s);
    }
    s.len()
}

// How many blanks at its front are no content.
fn code_start(s: &[u8], begun: bool) -> usize
    ensures { Skipped s.now result (cond begun (trim_start_matches blank s.now) s.now) }
{
    if begun {
        return trim_start_matches::<Blank>(s);
    }
    0
}

// The code is the n bytes behind the text.
fn push_trimmed_code(tree: &Tree, text: &mut Text, n: usize, i: usize) -> Result<(), Full>
    requires { SomeElement tree.now.sheet.now tree.now.nodes.now i × (text.old.len + n ≤ length text.old.room.now) }
    ensures { (name : Bytes) (attrs : List Attr) (kids : Forest) → ElementAt tree.now.sheet.now tree.now.nodes.now i name attrs kids → WritesTo text.old text.new result (def.push_code_text (length (def.trim_edges (text_of kids) (take n (drop text.old.len text.old.room.now)))) (def.trim_edges (text_of kids) (take n (drop text.old.len text.old.room.now)))) }
{
    let to = tree.node_end(i);
    let ended = ends_line(tree, i + 1, to);
    let begun = begins_line(tree, i + 1, to);
    let base = text.len;
    let code = &text.behind(base)[..n];
    let end = code_end(code, ended);
    let start = code_start(&code[..end], begun);
    let size = end - start;
    push_code_text(text, base + start, size, size)
}

fn code_opts(opts: FormatOpts) -> FormatOpts
    ensures { result ≡ def.code_opts opts }
{
    opts.fresh().include_node().inline().skip_escape().skip_md()
}

// What stands in the element, as code, in a room of its own.
fn write_content(
    tree: &Tree,
    skip: Option<&[u8]>,
    room: &mut [u8],
    i: usize,
    opts: FormatOpts,
) -> Wrote
    requires { SomeElement tree.now.sheet.now tree.now.nodes.now i }
    ensures { (name : Bytes) (attrs : List Attr) (kids : Forest) → ElementAt tree.now.sheet.now tree.now.nodes.now i name attrs kids → Writes (length room.old) room.new result (def.write_skip_md (tags_to_skip (skip_of skip.entry)) opts (element name attrs kids nothing) []) }
{
    let mut text = Text { room, len: 0 };
    write_skip_md(tree, skip, &mut text, i, opts)?;
    Ok(text.len)
}

// One line of code.
fn inline_code(
    tree: &Tree,
    skip: Option<&[u8]>,
    text: &mut Text,
    i: usize,
    opts: FormatOpts,
) -> Result<(), Full>
    requires { SomeElement tree.now.sheet.now tree.now.nodes.now i }
    ensures { (levels : ℕ) (name : Bytes) (attrs : List Attr) (kids : Forest) → ElementAt tree.now.sheet.now tree.now.nodes.now i name attrs kids → WritesTo text.old text.new result (def.inline_code (serializer (tags_to_skip (skip_of skip.entry)) levels) opts name attrs kids) }
{
    let n = write_content(tree, skip, &mut text.room[text.len..], i, code_opts(opts))?;
    push_trimmed_code(tree, text, n, i)
}

pub fn write_code(
    tree: &Tree,
    skip: Option<&[u8]>,
    text: &mut Text,
    i: usize,
    opts: FormatOpts,
) -> Result<(), Full>
    requires { Placed tree.now.sheet.now tree.now.nodes.now i }
    ensures { (levels : ℕ) (name : Bytes) (attrs : List Attr) (kids : Forest) (anc : Ancestors) → ElementAt tree.now.sheet.now tree.now.nodes.now i name attrs kids → Around tree.now.sheet.now tree.now.nodes.now (parent_at tree.now.nodes.now i) anc → WritesTo text.old text.new result (def.write_code (serializer (tags_to_skip (skip_of skip.entry)) levels) anc opts name attrs kids) }
{
    let to = tree.node_end(i);
    if is_multiline(tree, i + 1, to) {
        return write_pre(tree, text, i, opts);
    }
    inline_code(tree, skip, text, i, opts)
}

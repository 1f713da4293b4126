// `pre`, which reaches no other writer.
ghost use Rattle.std.specs.Prelude.{List, ℕ, ◌+◌, ◌≤◌, length, take, drop};
ghost use Rattle.spec.specs.Bytes.{Bytes, ascii, words, join, or_nothing};
ghost use Rattle.spec.specs.Out.{push};
ghost use Rattle.spec.specs.Tree.{Attr, Forest, text_of};
ghost use Rattle.spec.specs.Md.MDSerializer.{Ancestors};
ghost use Rattle.spec.specs.Md.Elements.Code as def;
ghost use Rattle.tree.specs.Memory.{parent_at};
ghost use Rattle.tree.specs.Represents.{Rep, Around};
ghost use Rattle.text.specs.Texts.{WritesTo};
ghost use Rattle.elements.specs.JoinedWords.{word_byte, Joins};
ghost use Rattle.elements.specs.PreStep.{pre_step};
ghost use Rattle.nodes.specs.Stands.{Siblings, ElementAt, Placed};

use crate::code_language::find_code_language;
use marks::code::{push_code_text, push_fenced_block};
use nodes::nodes::push_text_of;
use normalized::text_utils::push_block_space;
use spec::ctx::FormatOpts;
use text::buffer::Full;
use text::class::{ByteClass, White};
use text::text::Text;
use tree::nodes::Tree;

// Whether a word stands in the text behind some pieces, and whether a white byte came last.
#[derive(Clone, Copy)]
pub struct Joined {
    pub some: bool,
    pub gap: bool,
}

// Appends a byte of a word, behind a blank if it leads the word.
fn push_word_byte(text: &mut Text, b: u8, lead: bool) -> Result<(), Full>
    ensures { WritesTo text.old text.new result (push (word_byte lead b)) }
{
    if White::has(b) {
        return Ok(());
    }
    text.push_byte_if(b' ', lead)?;
    text.push_byte(b)
}

// Appends the words of a piece, with one blank between two.
fn join_words(text: &mut Text, from: Joined, s: &[u8]) -> Result<Joined, Full>
    ensures { Joins text.old text.new result from.some from.gap s.now }
{
    let Joined { mut some, mut gap } = from;
    for b in s {
        push_word_byte(text, *b, some & gap)?;
        gap = White::has(*b);
        some |= !gap;
    }
    Ok(Joined { some, gap })
}

// Appends the words of the texts of the nodes from number `from` up to `to`: no more than they is held.
fn push_words(tree: &Tree, text: &mut Text, from: usize, to: usize) -> Result<(), Full>
    requires { Siblings tree.now.sheet.now tree.now.nodes.now from to }
    ensures { (parent : ℕ) (f : Forest) → Rep tree.now.sheet.now tree.now.nodes.now parent from to f → WritesTo text.old text.new result (push (join (ascii " ") (words (text_of f)))) }
{
    let mut state = Joined {
        some: false,
        gap: false,
    };
    for i in from..to {
        state = join_words(text, state, tree.field(i).text())?;
    }
    Ok(())
}

// The words as a code span.
fn push_word_span(tree: &Tree, text: &mut Text, from: usize, to: usize) -> Result<(), Full>
    requires { Siblings tree.now.sheet.now tree.now.nodes.now from to }
    ensures { (parent : ℕ) (f : Forest) → Rep tree.now.sheet.now tree.now.nodes.now parent from to f → WritesTo text.old text.new result (def.push_code_text 0 (join (ascii " ") (words (text_of f)))) }
{
    let start = text.len;
    push_words(tree, text, from, to)?;
    let n = text.len - start;
    text.len = start;
    push_code_text(text, start, n, 0)
}

// In a link's text.
fn pre_in_link(tree: &Tree, text: &mut Text, from: usize, to: usize) -> Result<(), Full>
    requires { Siblings tree.now.sheet.now tree.now.nodes.now from to }
    ensures { (parent : ℕ) (f : Forest) → Rep tree.now.sheet.now tree.now.nodes.now parent from to f → WritesTo text.old text.new result (def.pre_in_link (text_of f)) }
{
    push_block_space(text)?;
    push_word_span(tree, text, from, to)?;
    push_block_space(text)
}

// The block of the n bytes behind the text.
fn push_pre(tree: &Tree, text: &mut Text, n: usize, i: usize) -> Result<(), Full>
    requires { Placed tree.now.sheet.now tree.now.nodes.now i × (text.old.len + n ≤ length text.old.room.now) }
    ensures { (name : Bytes) (attrs : List Attr) (kids : Forest) (anc : Ancestors) → ElementAt tree.now.sheet.now tree.now.nodes.now i name attrs kids → Around tree.now.sheet.now tree.now.nodes.now (parent_at tree.now.nodes.now i) anc → WritesTo text.old text.new result (pre_step (or_nothing (def.find_code_language anc attrs kids)) (take n (drop text.old.len text.old.room.now))) }
{
    let language = find_code_language(tree, i).unwrap_or(b"");
    push_fenced_block(text, text.len, n, language)
}

// A fenced block, which is longer than its content.
fn pre_block(tree: &Tree, text: &mut Text, i: usize) -> Result<(), Full>
    requires { Placed tree.now.sheet.now tree.now.nodes.now i }
    ensures { (name : Bytes) (attrs : List Attr) (kids : Forest) (anc : Ancestors) → ElementAt tree.now.sheet.now tree.now.nodes.now i name attrs kids → Around tree.now.sheet.now tree.now.nodes.now (parent_at tree.now.nodes.now i) anc → WritesTo text.old text.new result (pre_step (or_nothing (def.find_code_language anc attrs kids)) (text_of kids)) }
{
    let start = text.len;
    push_text_of(tree, text, i + 1, tree.node_end(i))?;
    let n = text.len - start;
    text.len = start;
    push_pre(tree, text, n, i)
}

pub fn write_pre(tree: &Tree, text: &mut Text, i: usize, opts: FormatOpts) -> Result<(), Full>
    requires { Placed tree.now.sheet.now tree.now.nodes.now i }
    ensures { (name : Bytes) (attrs : List Attr) (kids : Forest) (anc : Ancestors) → ElementAt tree.now.sheet.now tree.now.nodes.now i name attrs kids → Around tree.now.sheet.now tree.now.nodes.now (parent_at tree.now.nodes.now i) anc → WritesTo text.old text.new result (def.write_pre anc opts attrs kids) }
{
    if opts.link_body {
        return pre_in_link(tree, text, i + 1, tree.node_end(i));
    }
    pre_block(tree, text, i)
}

// The leaf functions of normalized, marks and lists_links by the Rust's files and names.
use crate::setup::{
    Answer, BLANK, BLOCKS, Case, FIRST, INDENTED, code, destination, emphasized, fenced, image,
    indented, number, parsed, truth,
};
use lists_links::ctx::push_prefix;
use lists_links::list::{begin_item, end_item, push_block_lead, push_inline_lead, push_rule};
use lists_links::title::push_title;
use marks::code::{max_backtick_run, push_sanitized};
use marks::emphasis::{is_exact_marker_end, try_trim_prev_emphasis_marker};
use marks::heading::{escape_closing_hashes, is_heading, push_md_prefix};
use marks::table::{
    add_cell_block_break, ends_with_cell_break, escape_table_cell_inplace, trim_trailing_cell_break,
};
use normalized::normalize::push_normalized_text;
use normalized::text_utils::{
    add_linebreaks, ends_with_marker_digits, escape_trailing_bang, is_ordered_list_marker,
    push_block_space, trim_space, trim_trailing_space,
};
use text::buffer::{Full, Wrote};
use text::text::Text;

fn text_utils(name: &[u8], text: &mut Text, case: Case) -> Option<Answer> {
    Some(match name {
        b"push_normalized_text" => {
            Answer::Written(push_normalized_text(text, case.a, case.options()))
        }
        b"ends_with_marker_digits" => truth(ends_with_marker_digits(case.a)),
        b"is_ordered_list_marker" => truth(is_ordered_list_marker(case.a)),
        b"escape_trailing_bang" => Answer::Written(escape_trailing_bang(text)),
        b"trim_trailing_space" => number(trim_trailing_space(case.a)),
        b"add_linebreaks" => Answer::Written(add_linebreaks(text, case.a, case.b)),
        b"push_md_url" => Answer::Written(destination(text, case.a)),
        b"push_title" => Answer::Written(push_title(text, case.a)),
        b"push_block_space" => Answer::Written(push_block_space(text)),
        b"trim_space" => {
            trim_space(text);
            Answer::Written(Ok(()))
        }
        _ => return None,
    })
}

fn heading(name: &[u8], text: &mut Text, case: Case) -> Option<Answer> {
    Some(match name {
        b"is_heading" => truth(is_heading(case.x)),
        b"md_prefix" => Answer::Written(push_md_prefix(text, case.x)),
        b"escape_closing_hashes" => Answer::Written(escape_closing_hashes(text)),
        _ => return None,
    })
}

fn code_block(name: &[u8], text: &mut Text, case: Case) -> Option<Answer> {
    Some(match name {
        b"max_backtick_run" => number(max_backtick_run(case.a)),
        b"sanitize_attr_value" => Answer::Written(push_sanitized(text, case.a)),
        b"push_code_text" => Answer::Written(code(text, case)),
        b"write_pre" => Answer::Written(fenced(text, case)),
        _ => return None,
    })
}

fn emphasis(name: &[u8], text: &mut Text, case: Case) -> Option<Answer> {
    Some(match name {
        b"is_exact_marker_end" => truth(is_exact_marker_end(case.a, case.b)),
        b"try_trim_prev_emphasis_marker" => {
            Answer::Written(try_trim_prev_emphasis_marker(text, case.a))
        }
        b"push_emphasis" => Answer::Written(emphasized(text, case)),
        _ => return None,
    })
}

fn table(name: &[u8], text: &mut Text, case: Case) -> Option<Answer> {
    Some(match name {
        b"ends_with_cell_break" => truth(ends_with_cell_break(case.a)),
        b"add_cell_block_break" => Answer::Written(add_cell_block_break(text, case.a)),
        b"trim_trailing_cell_break" => number(trim_trailing_cell_break(case.a)),
        b"escape_table_cell_inplace" => Answer::Written(escape_table_cell_inplace(text)),
        _ => return None,
    })
}

fn list(name: &[u8], text: &mut Text, case: Case) -> Option<Answer> {
    Some(match name {
        b"prefix" => Answer::Written(push_prefix(text, case.context())),
        b"begin_item" => Answer::Written(begin_item(text, case.has(BLOCKS), case.context())),
        b"write_list_item_indented" => Answer::Written(indented(text, case)),
        b"parse_list_number" => parsed(case.a),
        b"write_img" => Answer::Written(image(text, case.a)),
        _ => return None,
    })
}

// What write_list_item_blocks puts before and behind an item's children.
fn item_parts(name: &[u8], text: &mut Text, case: Case) -> Option<Answer> {
    let item = case.item();
    let wrote = match name {
        b"push_rule" => push_rule(text, item),
        b"push_block_lead" => push_block_lead(text, item, case.has(FIRST), case.has(INDENTED)),
        b"push_inline_lead" => push_inline_lead(text, item, case.has(BLANK)),
        b"end_item" => end_item(text, item),
        _ => return None,
    };
    Some(Answer::Written(wrote))
}

// What the leaf of a file of the Rust's answers, if there is one. Any other file stands for `list` and `image`.
fn answer_of(file: &[u8], name: &[u8], text: &mut Text, case: Case) -> Option<Answer> {
    match file {
        b"text_utils" => text_utils(name, text, case),
        b"heading" => heading(name, text, case),
        b"code" => code_block(name, text, case),
        b"emphasis" => emphasis(name, text, case),
        b"table" => table(name, text, case),
        b"list_item_blocks" => item_parts(name, text, case),
        _ => list(name, text, case),
    }
}

// The answer where there is no such leaf. No case has it.
const NO_LEAF: usize = 999_999;

// What that leaf answers, as a number: of a leaf that writes, the length of the text then.
pub fn run(file: &[u8], name: &[u8], text: &mut Text, case: Case) -> Wrote {
    match answer_of(file, name, text, case).unwrap_or(number(NO_LEAF)) {
        Answer::Written(Ok(())) => Ok(text.len),
        Answer::Written(Err(full)) => Err(full),
        Answer::Number(n) => n.ok_or(Full),
    }
}

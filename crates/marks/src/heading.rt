// heading.rs. A name is its number of `spec::element`.
ghost use Rattle.std.specs.Prelude.{◌≡◌, ℕ};
ghost use Rattle.spec.specs.Out.{push};
ghost use Rattle.spec.specs.Md.Heading as def;
ghost use Rattle.text.specs.Texts.{WritesTo};

use spec::element::{H1, H2, H3, H4, H5, H6, HR};
use text::buffer::{Full, ends_with_byte, trim_end_matches};
use text::class::Only;
use text::text::Text;
use text::white_space::trim_end;

#[tactic(auto, unfolding(spec::specs::Md::Heading::is_heading, spec::specs::Bytes::isin))]
pub fn is_heading(name: usize) -> bool
    ensures { result ≡ def.is_heading name }
{
    matches!(name, H1..=H6)
}

// Appends what begins a heading or is a rule.
pub fn push_md_prefix(text: &mut Text, name: usize) -> Result<(), Full>
    ensures { WritesTo text.old text.new result (push (def.md_prefix name)) }
{
    text.push_all(match name {
        H1 => b"# ",
        H2 => b"## ",
        H3 => b"### ",
        H4 => b"#### ",
        H5 => b"##### ",
        H6 => b"###### ",
        HR => b"---",
        _ => b"",
    })
}

// Escapes a run of `#` behind a blank at the end, which would close the heading.
pub fn escape_closing_hashes(text: &mut Text) -> Result<(), Full>
    ensures { WritesTo text.old text.new result def.escape_closing_hashes }
{
    let s = text.bytes();
    let n = trim_end(s);
    let stem = trim_end_matches::<Only<b'#'>>(&s[..n]);
    if (stem < n) & ends_with_byte(&s[..stem], b' ') {
        return text.insert_byte(stem, b'\\');
    }
    Ok(())
}

// The call for hosts in other languages, as a static library: `buzhnael_serialize_md` of `md` under its own name.

#![tactic(auto)]

ghost use Rattle.spec.specs.Promise.{Promise};
ghost use Rattle.input.specs.Scans.{skip_list};
ghost use Rattle.md.specs.Answer.{coded_number, coded_length, flag};

// 0 is false and any other flag true; the length of the text, or below 0 the number of the question that said no.
#[unsafe(no_mangle)]
pub extern "C" fn buzhnael_serialize_md(
    sheet: &[u8],
    own: u8,
    run: &[u8],
    start: usize,
    include_node: u8,
    nodes: &mut [u8],
    text: &mut [u8],
) -> i64
    ensures { Promise sheet.now (skip_list (flag own) run.now) start (flag include_node) nodes.old text.old (coded_number result) (coded_length result) nodes.new text.new }
{
    md::call::buzhnael_serialize_md(sheet, own, run, start, include_node, nodes, text)
}

// The options in one number, as they are handed from level to level: a record of nine fields is stored field by field, and read in
// wider steps by the next level, which has to wait for it.
ghost use Rattle.std.specs.Prelude.{◌*◌, ◌+◌, ◌/◌, ◌≤◌, ◌<◌, ◌^◌, ◌≡◌};
ghost use Rattle.serializer.specs.Options as def;

use spec::ctx::{EmphasisScope, FormatOpts};

// `bits`, and the flag as a binary digit below it.
fn put_flag(flag: bool, bits: usize) -> usize
    requires { bits < 2 ^ 62 }
    ensures { (def.odd result ≡ flag) × (result / 2 ≡ bits) × (result ≤ bits * 2 + 1) }
{
    bits * 2 + (flag as usize)
}

// The options as one number; each number gives some.
#[derive(Clone, Copy)]
pub struct PackedOpts {
    pub bits: usize,
}

impl PackedOpts {
    pub fn of(o: FormatOpts) -> Self
        requires { o.offset < 2 ^ 48 }
        ensures { def.unpacked result ≡ o }
    {
        let bits = o.offset * 256 + (o.emphasis_scope.0 as usize);
        let bits = put_flag(o.link_body, bits);
        let bits = put_flag(o.list_item, bits);
        let bits = put_flag(o.table_cell, bits);
        let bits = put_flag(o.skip_md, bits);
        let bits = put_flag(o.inline, bits);
        let bits = put_flag(o.skip_escape, bits);
        PackedOpts {
            bits: put_flag(o.include_node, bits),
        }
    }

    pub fn opts(self) -> FormatOpts
        ensures { result ≡ def.unpacked self }
    {
        let bits = self.bits;
        FormatOpts {
            include_node: bits % 2 != 0,
            skip_escape: bits / 2 % 2 != 0,
            inline: bits / 4 % 2 != 0,
            skip_md: bits / 8 % 2 != 0,
            table_cell: bits / 16 % 2 != 0,
            list_item: bits / 32 % 2 != 0,
            link_body: bits / 64 % 2 != 0,
            offset: bits / 32768,
            emphasis_scope: EmphasisScope((bits / 128 % 256) as u8),
        }
    }
}

// A record in bytes, decoded by itself, and what it draws.
ghost use Rattle.std.specs.Prelude.{◌≡◌, ◌+◌, ◌*◌};
ghost use Rattle.model.specs.Lists.{part};
ghost use Rattle.wire.specs.Bytes.{words_in};
ghost use Rattle.tables.specs.Records.{node_row, channel_row};
ghost use Rattle.checks.specs.declared.Table.TheVariants as table;
ghost use Rattle.checks.specs.Drawn.{record_words};
ghost use Rattle.byte_checks.specs.Bytes.{TableThere, RecordThere};
ghost use Rattle.byte_checks.specs.There.{lies_there};

use checks::{Table, Words};
use refusals::Refusal;
use row_checks::Sizes;
use tables::{ChannelRow, NodeRow};
use tracks::Part;

// The bytes of record i.
fn record_bytes(words: &[u8], t: Part, k: Table, i: usize) -> &[u8]
    requires { RecordThere words.now t k i }
    ensures { words_in result.now
        ≡ part (words_in words.now) (t.at + i * record_words k) (record_words k) }
{
    let stride = checks::record_words(k);
    let at = t.at;
    let start = (at + i * stride) * 4;
    let end = start + stride * 4;
    &words[start..end]
}

// Record i of the nodes.
pub(crate) fn node_row(words: &[u8], nodes: Part, i: usize) -> NodeRow
    requires { RecordThere words.now nodes table.Nodes i }
    ensures { result ≡ node_row (words_in words.now) nodes i }
{
    let mut row = [0u32; 16];
    let n = wire::read(record_bytes(words, nodes, Table::Nodes, i), &mut row);
    tables::node_row(&row[..n], tables::alone(), 0)
}

// Record i of the channels.
pub(crate) fn channel_row(words: &[u8], channels: Part, i: usize) -> ChannelRow
    requires { RecordThere words.now channels table.Channels i }
    ensures { result ≡ channel_row (words_in words.now) channels i }
{
    let mut row = [0u32; 16];
    let n = wire::read(record_bytes(words, channels, Table::Channels, i), &mut row);
    tables::channel_row(&row[..n], tables::alone(), 0)
}

// Words as the bytes that hold them.
#[derive(Clone, Copy)]
pub(crate) struct Bytes<'a> {
    pub words: &'a [u8],
}

impl<'a> Words for Bytes<'a> {
    ghost said = { λ b. words_in b.words.now };

    ghost there = { λ b t k. TableThere b.words.now t k };

    ghost lies = { λ b t k e. lies_there b.words.now t k e };

    fn count(self) -> usize {
        self.words.len() / 4
    }

    fn child_count(self, nodes: Part, i: usize) -> usize {
        let node = node_row(self.words, nodes, i);
        let children = node.children;
        children.count
    }

    fn check_row(self, s: Sizes, t: Part, k: Table, i: usize) -> Result<(), Refusal> {
        let mut row = [0u32; 16];
        let n = wire::read(record_bytes(self.words, t, k, i), &mut row);
        checks::check_row(&row[..n], s, tables::alone(), k, 0)
    }
}

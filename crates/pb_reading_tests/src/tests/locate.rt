//! The places at which files break a rule.

ghost use Rattle.std.specs.Prelude.{◌≡◌, ◌⊎◌, None, IfOk};
ghost use Rattle.pb_plan_spans.specs.Spots.{IsRefusedAt};
ghost use Rattle.pb_service.specs.PlanFiles.{IsPlanFile};

use pb_frame::Memory;
use pb_plan_spans::{Spot, refused_at};
use std::alloc::Global;

/// A file, and the printed place of its fault, or nothing.
type Row = (&'static [u8], &'static str);

/// Files with their places.
const ROWS: &[Row] = &[
    // plans
    (b"", ""),
    (b"[network]\nageing = 300\n", ""),
    // not UTF-8: octets at the start, after others, on a later line, and a character that ends too early
    (b"\xff", "line 1, column 1"),
    (b"ab\xffcd\xff", "line 1, column 3"),
    (b"a\r\n\n\tb\xe4c\n", "line 3, column 3"),
    (b"# \xc3\xa4\n\xc3\xa4\xc3", "line 2, column 3"),
    // not TOML: a column counts octets
    (b"a", "line 1, column 2"),
    (b"\n\n  a = = 1\n", "line 3, column 7"),
    (b"a = '\xc3\xa4' b\n", "line 1, column 10"),
    (b"a = 1\r\na = 2\r\n", "line 2, column 1"),
    (b"[[bridge]]\n[bridge]\n", "line 2, column 1"),
    (b"\xef\xbb\xbfa = ", "line 1, column 8"),
    // a key of the network: first line, last line, with spaces, tabs and comments, twice in earlier comments
    (b"[network]\nageing = 9", "line 1"),
    (b"\n\n[network]\nageing = 9", "line 3"),
    (
        b"# [network]\n \t [ network ]\t# [[bridge]]\nageing = 9",
        "line 2",
    ),
    (b"[network]#'\"\nageing = 9", "line 1"),
    (b"\r\n[network]\r\nageing = 9\r\n", "line 2"),
    (b"\xef\xbb\xbf[network]\nageing = 9", "line 1"),
    (b"[network]\nkey = 9\n[network.more]\n", "line 1"),
    (b"[network.more]\n[network]\n", "line 2"),
    // there is no header
    (b"network = { ageing = 9 }\n", ""),
    (b"network.ageing = 9\n", ""),
    (b"[network.more]\n", ""),
    // tables of arrays: the first, those after it, and other headers between them
    (b"[[bridge]]\nqueue = 0\n", "line 1"),
    (
        b"[[bridge]]\nname = 'A'\naddress = '02-00-00-00-00-01'\n\n[[bridge]] # the second\nname = 'B'\n",
        "line 5",
    ),
    (
        b"[[service]]\r\nname = 'A'\r\nvid = 1\r\n\t[[service]]\r\nname = 'B'\r\nvid = 2\r\n[[ service ]]\r\n\
        name = 'C'\r\nvid = 0\r\n",
        "line 7",
    ),
    (
        b"[[service]]\nname = 'A'\nvid = 1\n[[port]]\n[[port.service]]\n[[services]]\n# [[service]]\n[[service]]\n\
        vid = '2'\n",
        "line 6",
    ),
    (
        b"[[service]]\nname = 'A'\nvid = 1\n[service.more]\n[[port]]\n[[service]]\nvid = '2'\n",
        "line 1",
    ),
    (b"[[port]]\nname = 'P'\n[[link]]\nname = 'L'\n", "line 3"),
    (b"[[port]]\nname = 'P'", "line 1"),
    (
        b"[[bridge]]\nname='B'\naddress='02-00-00-00-00-01'\n[[service]]\nname='S'\nvid=1\n[[port]]\nname='P'\n\
        bridge='B'\nport=1\nservice='S'\n\
          kind='capture'\nread='r'\nwrite='w'\nstamp='time'\n",
        "line 7",
    ),
    (
        b"[[port]]\nname='P'\nbridge='B'\nport=1\nservice='S'\nkind='socket'\npath='p'\nlisten='l'\n",
        "line 1",
    ),
    // eleven tables and more
    (
        b"[[service]]\nname='a'\nvid=1\n[[service]]\nname='b'\nvid=2\n[[service]]\nname='c'\nvid=3\n[[service]]\n\
        name='d'\nvid=4\n\
          [[service]]\nname='e'\nvid=5\n[[service]]\nname='f'\nvid=6\n[[service]]\nname='g'\nvid=7\n[[service]]\n\
          name='h'\nvid=8\n\
          [[service]]\nname='i'\nvid=9\n[[service]]\nname='j'\nvid=10\n[[service]]\nname='k'\nvid=4095\n",
        "line 31",
    ),
    // inline tables
    (b"bridge = [{ name = 'A' }]\n", ""),
    (
        b"service = [\n{ name = 'A', vid = 1 },\n{ name = 'B', vid = 0 },\n]\n",
        "",
    ),
    // a header in a text of several lines, or one that may be in one
    (
        b"[[bridge]]\nname = 'A'\naddress = '''\n[[bridge]]\n'''\n",
        "",
    ),
    (b"[[port]]\nname = \"\"\"\n[[port]]\n\"\"\"\n", ""),
    (b"# \"\"\"\n[network]\nageing = 9", ""),
    // a header or a key in quotation marks
    (b"[['bridge']]\nname = 'A'\n", ""),
    (
        b"[['service']]\nname = 'A'\nvid = 1\n[[service]]\nvid = 0\n[[service]]\n",
        "",
    ),
    (b"\"network.more\" = 1\n[network]\n", ""),
    (b" 'bridge[0].more' = 1\n[[bridge]]\n", ""),
    (b"'bridge[0].#' = 1\n[[bridge]]\n", ""),
    (b"[\"network.more\"]\n[network]\n", ""),
    // a list of texts has no keys
    (
        b"[[port]]\nname = 'P'\nin = [\n'ffff',\n\"02\",\n]\n",
        "line 1",
    ),
    // keys at the top
    (b"\n[[bridges]]\nname = 'A'\n", "line 2"),
    (b"[link]\n", "line 1"),
    (b"[network]\n[other] # more\n", "line 2"),
    (b"[[network]]\n", "line 1"),
    (b"other = 1\n", ""),
    (b"network = 1\n", ""),
    (b"other.more = 1\n", ""),
    (b"[other.more]\n", ""),
    // a line of an array that looks like the header of a key which is itself a value
    (b"true = 1\nother = [\n[true]\n]\n", ""),
    (b"1 = 1\nother = [\n[1]\n]\n", ""),
    (b"-1 = 1\nother = [\n[-1]\n]\n", ""),
    (b"[true]\n", ""),
    // faults without a place
    (
        b"[[service]]\nname = 'A'\nvid = 1\n[[service]]\nname = 'A'\nvid = 2\n",
        "",
    ),
    (
        b"[[port]]\nname = 'A'\nbridge = 'B'\nport = 1\nservice = 'S'\n",
        "",
    ),
];

/// Calls `refused_at`, and has what a caller may conclude from it as its contract.
fn placed(alloc: Global, file: &[u8]) -> Result<Option<Spot>, Memory>
    ensures { IfOk result (λ spot. (IsPlanFile file.now × (spot ≡ None)) ⊎ IsRefusedAt file.now spot) }
{
    refused_at(alloc, file)
}

/// Returns the printed place of a file's fault, or the empty text.
fn told_of(alloc: Global, file: &[u8]) -> Result<String, Memory> {
    match placed(alloc, file)? {
        Some(spot) => Ok(spot.to_string(alloc)?),
        None => Ok(String::new(alloc)),
    }
}

#[test]
fn files(rt: HostRuntime) -> Result<(), Memory> {
    for (number, (file, want)) in ROWS.iter().enumerate() {
        assert_eq!(rt; told_of(rt.alloc(), file)?.as_str(), *want, "row {number}");
    }
    Ok(())
}

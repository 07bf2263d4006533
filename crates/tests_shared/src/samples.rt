//! What the worked examples share: the rulebook of three months, the usual SendingTime, and the first trade.
use spread_rules_ids::Id;

/// A rulebook of three months and a tick of one hundredth.
pub const THREE_MONTHS: &[u8] = b"tick 1\nmonth H6 10000\nmonth M6 9800\nmonth U6 9500\n";

/// The first trade as one session's bytes: a Logon, an order to sell, an order to buy, a Logout.
pub const FIRST_TRADE: &[u8] =
    b"8=FIX.4.2\x019=57\x0135=A\x0134=1\x0149=C1\x0152=20260105-14:30:00\x0156=HOST\x0198=0\x01108=30\x0110=220\x01\
8=FIX.4.2\x019=104\x0135=D\x0134=2\x0149=C1\x0152=20260105-14:30:00\x0156=HOST\x0111=a\x0121=1\x0155=H6\x0154=2\x0160=20260105-14:30:00\x0138=5\x0140=2\x0144=100\x0110=168\x01\
8=FIX.4.2\x019=104\x0135=D\x0134=3\x0149=C1\x0152=20260105-14:30:00\x0156=HOST\x0111=b\x0121=1\x0155=H6\x0154=1\x0160=20260105-14:30:00\x0138=5\x0140=2\x0144=100\x0110=169\x01\
8=FIX.4.2\x019=45\x0135=5\x0134=4\x0149=C1\x0152=20260105-14:30:00\x0156=HOST\x0110=183\x01";

/// The first trade as day lines.
pub const FIRST_TRADE_LINES: &[u8] =
    b"0:8=FIX.4.2|9=57|35=A|34=1|49=C1|52=20260105-14:30:00|56=HOST|98=0|108=30|10=220|\n0:8=FIX.4.2|9=104|35=D|34=2|49=C1|52=20260105-14:30:00|56=HOST|11=a|21=1|55=H6|54=2|60=20260105-14:30:00|38=5|40=2|44=100|10=168|\n0:8=FIX.4.2|9=104|35=D|34=3|49=C1|52=20260105-14:30:00|56=HOST|11=b|21=1|55=H6|54=1|60=20260105-14:30:00|38=5|40=2|44=100|10=169|\n0:8=FIX.4.2|9=45|35=5|34=4|49=C1|52=20260105-14:30:00|56=HOST|10=183|\n";

/// The first trade's journal.
pub const FIRST_TRADE_JOURNAL: &[u8] =
    b"JOURNAL 2\n0 logon 4331 484f5354 30\n0 new 61 4836 2 5 10000 day\n0 new 62 4836 1 5 10000 day\n0 close 1\nEND 4\n";

/// What a replay of the first trade writes.
pub const FIRST_TRADE_TEXT: &[u8] =
    b"JOURNAL 2\n0 logon 4331 484f5354 30\n0 new 61 4836 2 5 10000 day\n0 new 62 4836 1 5 10000 day\n0 close 1\nEND 4\nF 3 3 0 H6 1 5 10000\nF 3 2 0 H6 2 5 10000\nO 0:8=FIX.4.2|9=57|35=A|34=1|49=HOST|52=20260105-14:30:00|56=C1|98=0|108=30|10=220|\nO 0:8=FIX.4.2|9=109|35=8|34=2|49=HOST|52=20260105-14:30:00|56=C1|37=2|11=a|17=2-1|20=0|150=0|39=0|55=H6|54=2|38=5|151=5|14=0|6=0|10=006|\nO 0:8=FIX.4.2|9=109|35=8|34=3|49=HOST|52=20260105-14:30:00|56=C1|37=3|11=b|17=3-1|20=0|150=0|39=0|55=H6|54=1|38=5|151=5|14=0|6=0|10=009|\nO 0:8=FIX.4.2|9=130|35=8|34=4|49=HOST|52=20260105-14:30:00|56=C1|37=3|11=b|17=3-2|20=0|150=2|39=2|55=H6|54=1|38=5|32=5|31=100.00|151=0|14=5|6=0|442=1|10=171|\nO 0:8=FIX.4.2|9=130|35=8|34=5|49=HOST|52=20260105-14:30:00|56=C1|37=2|11=a|17=3-3|20=0|150=2|39=2|55=H6|54=2|38=5|32=5|31=100.00|151=0|14=5|6=0|442=1|10=172|\nO 0:8=FIX.4.2|9=45|35=5|34=6|49=HOST|52=20260105-14:30:00|56=C1|10=185|\nM H6 5 5 50000 50000\nM M6 0 0 0 0\nM U6 0 0 0 0\n";

/// What the first trade's session is sent.
pub const FIRST_TRADE_SENT: &[u8] =
    b"8=FIX.4.2\x019=57\x0135=A\x0134=1\x0149=HOST\x0152=20260105-14:30:00\x0156=C1\x0198=0\x01108=30\x0110=220\x01\
8=FIX.4.2\x019=109\x0135=8\x0134=2\x0149=HOST\x0152=20260105-14:30:00\x0156=C1\x0137=2\x0111=a\x0117=2-1\x0120=0\x01150=0\x0139=0\x0155=H6\x0154=2\x0138=5\x01151=5\x0114=0\x016=0\x0110=006\x01\
8=FIX.4.2\x019=109\x0135=8\x0134=3\x0149=HOST\x0152=20260105-14:30:00\x0156=C1\x0137=3\x0111=b\x0117=3-1\x0120=0\x01150=0\x0139=0\x0155=H6\x0154=1\x0138=5\x01151=5\x0114=0\x016=0\x0110=009\x01\
8=FIX.4.2\x019=130\x0135=8\x0134=4\x0149=HOST\x0152=20260105-14:30:00\x0156=C1\x0137=3\x0111=b\x0117=3-2\x0120=0\x01150=2\x0139=2\x0155=H6\x0154=1\x0138=5\x0132=5\x0131=100.00\x01151=0\x0114=5\x016=0\x01442=1\x0110=171\x01\
8=FIX.4.2\x019=130\x0135=8\x0134=5\x0149=HOST\x0152=20260105-14:30:00\x0156=C1\x0137=2\x0111=a\x0117=3-3\x0120=0\x01150=2\x0139=2\x0155=H6\x0154=2\x0138=5\x0132=5\x0131=100.00\x01151=0\x0114=5\x016=0\x01442=1\x0110=172\x01\
8=FIX.4.2\x019=45\x0135=5\x0134=6\x0149=HOST\x0152=20260105-14:30:00\x0156=C1\x0110=185\x01";

/// The id of these bytes; one byte 0 where they are no id.
pub fn id(text: &[u8]) -> Id {
    match Id::new(text) {
        Some(id) => id,
        None => Id::default(),
    }
}

/// The SendingTime of the worked examples.
pub fn stamp() -> Id {
    id(b"20260105-14:30:00")
}

/// Whether the first of sixteen lists is what the first trade's session is sent, and the others are empty.
pub fn is_first_sent(lists: &[Vec<u8>]) -> bool {
    match lists {
        [first, others @ ..] => {
            others.len() == 15
                && first.as_slice() == FIRST_TRADE_SENT
                && others.iter().all(|list| list.is_empty())
        }
        [] => false,
    }
}

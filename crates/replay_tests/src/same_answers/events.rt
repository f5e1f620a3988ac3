//! Events as tables.
//!
//! A row is `SOURCE|LINES`. The source is the beginning of a line that was printed, or that stands in
//! the list and begins with `client`; `?` stands for any byte. One of those lines is drawn, mostly of
//! the last ones; a row without a source takes nothing from a line. Places in the lines are
//!
//! - `$d $t $k $p $q`: the number of the source's connection, and its message's type, count, first and
//!   second parameter; `$Q` the second parameter in decimal;
//! - `$1` to `$9`: a drawn digit from 1 to that one;
//! - `$/`: the end of a line;
//! - any other letter: one of the words that `words` has for it.

/// Clients ask about channels that they have.
pub(crate) const REQUESTS: &[u8] =
    b"s? 0012|client s$d 00010010$T$K$q0000003$9000000000000000000000000$M0000
s? 0012|client s$d 00010010$t$K$q0000003$9000000000000000000000000$M0000
s? 0012|client s$d 00010010$t0000$q0000003$9000000000000000000000000$M0000
client s? 0001|client s$d 00020000$t$k$p$q
s? 0012|client s$d 000f0000$T$K$q000000$9$9
s? 0012|client s$d 000f0000$t$K$q000000$9$9
s? 0012|client s$d 000f0000$t0000$q000000$9$9
s? 0012|client s$d 000f0000$t0001$q000000$9$9
s? 001200000003|client s$d 000f0000$J$k$q000000$9$9
s? 001200000003|client s$d 00010010$J$k$q0000003$9000000000000000000000000$M0000
s? 001200000006|client s$d 000f0000$Y$k$q000000$9$9
s? 001200000006|client s$d 00010010$Y$k$q0000003$9000000000000000000000000$M0000
s? 0012|client s$d 00040008$W$K$q00000000$V$V
s? 0012|client s$d 00130008$W$K$q000000$9$9$V$V
s? 0012|client s$d 00130008$t0001$q000000$9$9$V$V
|client s$3 0012000800000000000000$9$90000000d543$5000000000000
|client s$4 0012000800000000000000$9$90000000d543$5000000000000";

/// Servers say what was asked of them.
pub(crate) const REPLIES: &[u8] =
    b"u? 00010010|server u$d 00010038$t$C00000001$q$A3b9aca000000000$9$V$V$V$V$V$V$V$V$V$V$V
u? 00010010|server u$d 00010038$t$k00000001$q$A3b9aca000000000$9$V$V$V$V$V$V$V$V$V$V$V
u? 00010010|server u$d 00010038$t$C00000001$q$A3b9aca000000000$9$V$V$V$V$V$V$V$V$V$V$V
u? 00010010|server u$d 00010018$t000100000001$q$A3b9aca000000000$9$V$V$V
u? 000100100021|server u$d 000100300021$P00000001$q$A$V$V$V$V$V$V$V$V$V$V$V
u? 000100100021|server u$d 000100300021$P00000001$q$A$V$V$V$V$V$V$V$V$V$V$V
u? 000100100022|server u$d 000100580022$P00000001$q$A000$90000$V$V$V$V$V$V$V$V$V$V$V$V$V$V$V$V$V$V$V$V
u? 00010010001f|server u$d 000101a8001f$P00000001$q$A$B$F$F$F$F$F$F$F$F$F$F$F$F$F$F$F$F000$3
u? 00010010001f|server u$d 000101a8001f$P00000001$q$A$B$F$F$F$F$F$F$F$F$F$F$F$F$F$F$F$F000$3
u? 00010010001e|server u$d 00010038$t$P00000001$q$A$V$V$V$V$V$V$V$V$V$V$V$V$V
u? 000100100020|server u$d 00010038$t$P00000001$q$A$V$V$V$V$V$V$V$V$V$V$V$V$V
u? 000100100011|server u$d 00010018$t000100000001$q$A3b9aca000000000$90000000$3$V$V
u? 0012|server u$d 00120000$N$C$p000000$9$9
u? 0012|server u$d 0016000000000000$p0000000$R$/server u$d 001200000005000$3$p000000$9$9
u? 0012|server u$d 0016000000000000$p0000000$R
u? 0013|server u$d 00130000$t$k$S$q
u? 0013|server u$d 00130000$t$k00000001$q
|found T$5 u$2
|found T$5 u$3";

/// What is known is asked for.
pub(crate) const QUESTIONS: &[u8] = b"|asks
|sub T$5
|props T$5
s? 0012|rights s$d $Q
s? 0012|read s$d $Q $D $E
|search lab$3 000600080005000d0000000$90000000$9543$5000000000000
|search lab$3 000000000000000d0000000000000000000600080005000d00000011000000115431000000000000000600080005000d0000000$90000000$9543$5000000000000";

/// Connections come and go, rows go, and outboxes wait.
pub(crate) const CHANGES: &[u8] = b"|open s$4 lab$3
|open s$4 lab$3$/client s$4 0012000800000000000000$9$90000000d543$5000000000000
|lost s$4
|open u$3$/server u$3 000000000000000d0000000000000000
|open u$3
|lost u$3
u? 0013|lost u$d$/open u$d$/server u$d 00130000$t$k00000001$q
|lost s$4$/open s$4 lab$3$/client s$4 001500080000000000000000000000006c61623$300000000$/client s$4 0012000800000000000000$9$90000000d543$5000000000000
s? 0012|client s$d 000c000000000000$q$p
s? 0012|client s$d 000c000000000000$q$p
u? 0012|server u$d 001b000000000000$p00000000
u? 0012|server u$d 001a000000000000$p00000000
client s? 0001|client s$d 00080000000000000000000000000000
client s? 0001|client s$d 00090000000000000000000000000000
|client s$4 00090000000000000000000000000000
|hold s$3
|flow s$3
|flow s$3
|drain s$3 $4
|sweep";

/// Somebody sees after the gateway.
pub(crate) const UPKEEP: &[u8] = b"|limit $Z $z
|limit $Z $z
|limit $Z 100
|limit $Z 100
|limit searches $4
|limit share $3
|limit makes-room 1
|limit makes-room $y
|limit passes-over-gone 1
|limit answers-searches 1
|limit passes-over-gone $y
s? 0012|client s$d 000c000000000000$q$p$/client s$d 000f0000$t$k$q000000$9$9$/client s$d 00010010$t$k$q0000003$9000000000000000000000000$M0000$/client s$d 00020000$t$k$q0000003$9
s? 0012|client s$d 000c000000000000$q$p$/client s$d 00040008$W$K$q00000000$V$V$/client s$d 00130008$W$K$q000000$9$9$V$V$/client s$d 000c000000000000$q$p
|limit $O $y
|limit update-bytes $w
|limit update-bytes 18446744073709551615
|limit messages 9
|limit messages 16384
|age
|age
|age$/age
|search lab$3 000600080005000d0000000$90000000$9543$5000000000000$/age
|probe $3";

/// What is refused, ignored or cut, and what says nothing.
pub(crate) const ODDITIES: &[u8] = b"|client s$4 000000000000000$X0000000000000000
|client s$4 00000000000000080000000000000000
|client s$4 001500080000000000000000000000006c6162$H00000000
|client s$4 00140008000000000000000000000000$V$V
|client s$4 00170000000000000000000000000000
|client s$4 00170008$T$K000000$9$9000000$9$9$V$V
|client s$4 00$U0000$T$K000000$9$9000000$9$9
|client s$4 000f0000$T$K000000$9$9000000$9$9
|client s$4 0001001000050001000000$9$90000003$9000000000000000000000000$M0000
s? 0012|client s$d 00020000$t$k$q0000003$9
s? 0012|client s$d 00010008$t$k$q0000003$9$V$V
s? 0012|client s$d 00010010$L$K$q0000003$9000000000000000000000000$M0000
s? 0012|client s$d 000f0000$L$K$q000000$9$9
s? 0012|client s$d 00130000$L$K$q000000$9$9
s? 0012|client s$d 000fffff$T0000$q000000$9$9000000000000$K
s? 0012|client s$d 0013ffff$t0000$q000000$9$90000000800000001$V$V
s? 0012|client s$d 000f0000$t$/client s$d $K$q000000$9$9
s? 0012|client s$d 00010010$t$k$q0000003$900000000$/client s$d 0000000000000000$M0000
|client s$4 0012000800000000000000$9$90000000d5431323334353637
|client s$4 0012000000000000000000$9$90000000d
|client s$4 00120003000000000000000000000000
|client s$4 0017ffff0000000000000000000000007ffffff800000000
|client s$4 0012
u? 00010010|server u$d 00010038$T$k00000001$q$A3b9aca000000000$9$V$V$V$V$V$V$V$V$V$V$V
u? 00010010|server u$d 00010008$t$k00000001$q$V$V
u? 00010010|server u$d 00010000$t$k0000009$9$q
u? 00010010002?|server u$d 00010000$t$k0000009$9$q
u? 0002|server u$d 00010000$t$k$p$q
u? 0012|server u$d 00120000$L$K$p000000$9$9
|server u$3 001200000005000$3000000$9$9000000$9$9
|server u$3 0016000000000000000000$9$90000000$R
|server u$3 00130000000500010000000$9000000$9$9
|server u$3 000000000000000$X0000000000000000
|server u$3 00$U0000$T$K000000$9$9000000$9$9
|server u$3 00160003000000000000000000000000
|server u$3 0001
|found T$9 u$4
|lost s$9
|client s$9 0017";

/// Rule files, group files and access security files; and users and hosts that these speak of.
pub(crate) const EDITS: &[u8] = b"|edit 0 0
|edit 1 1$/.* ALLOW ops$/ops $G
|edit 1 2$/.* ALLOW ops$/ops READ$/ops $G
|edit 2 1$/.* ALLOW$/T$5 ALLOW ops$/ops $G
|edit 2 0$/.* ALLOW$/T$5 DENY
|edit 2 0$/.* ALLOW$/T$5 DENY FROM lab$3
|edit 2 1$/.* ALLOW ops$/T$5 ALIAS T$5 ops$/ops $G
|edit 2 0$/T[1-$5] ALLOW$/\\(.\\)$5 ALIAS \\1$5
|edit 2 1$/.* ALLOW$/T[$5$5] ALLOW ops$/ops $G
|edit 1 0$/T$5 GRANT
|edit 1 2$/.* ALLOW ops$/ops $G$/ops ALL
|edit 1 0$/(.* ALLOW
|edit 1 0 4$/.* ALLOW ops$/UAG(us) {u1, u2} HAG(hs) {LAB1, lab2}$/ASG(DEFAULT) {RULE(1, $G)}$/ASG(ops) {$/RULE(1, $G) RULE(0, $G) {UAG(us)} RULE(1, $G) {HAG(hs)}}
|edit 2 0 3$/.* ALLOW ops$/T$5 ALLOW eng $y$/UAG(us) {u$3}$/ASG(ops) {RULE(1, WRITE)}$/ASG(eng) {RULE(1, READ) RULE($y, $G) {UAG(us)}}
|edit 1 1 2$/T[1-$5] ALLOW ops$/ops $G$/HAG(hs) {lab$3, Lab$3}$/ASG(ops) {RULE(1, $G) RULE(1, $G) {HAG(hs)}}
|edit 0 1 1$/ops $G$/ASG(DEFAULT) {RULE($y, $G)}
|edit 0 0 1$/ASG(ops) {RULE(1, WRITE)}
|edit 0 0 2$/ASG(ops) {$/RULE(1, WRITE) {CALC(\"A=1\")}}
|limit checks-hosts $y
|lost s$3$/open s$3 lab$3$/client s$3 001400080000000000000000000000007531000000000000$/client s$3 0012000800000000000000$9$90000000d543$5000000000000
|lost s$3$/open s$3 lab$3$/client s$3 0014000800000000000000000000000075$H000000000000$/client s$3 001500080000000000000000000000006c61623200000000$/client s$3 0012000800000000000000$9$90000000d543$5000000000000
|edit 0 0";

/// How a list begins.
pub(crate) const BEGINNING: &[u8] = b"open s1 lab1
open s2 lab2
open s3 lab3
open u1
open u2
server u1 000000000000000d0000000000000000
server u2 000000000000000$X0000000000000000
client s1 000000000000000d0000000000000000
client s1 0012000800000000000000010000000d5431000000000000
client s1 0012000800000000000000020000000d5432000000000000
client s2 0012000800000000000000030000000d5433000000000000
search lab3 000600080005000d00000011000000115631000000000000
found T1 u1
found T2 u2
found T3 u$2
found V1 u1
server u1 00160000000000000000000100000003
server u1 00120000000500030000000100000065
server u2 00160000000000000000000200000003
server u2 00120000$I$C0000000200000066
server u1 00160000000000000000000300000003
server u1 00120000$N$C0000000300000067
server u2 00160000000000000000000300000003
server u2 00120000$N$C0000000300000068
server u1 0016000000000000000000040000000$R
server u1 0012000000$30$C0000000400000069
client s1 0012000800000000000000010000000d543$2000000000000
client s1 0012000800000000000000020000000d5432000000000000
client s1 0012000800000000000000030000000d5433000000000000
client s2 0012000800000000000000010000000d5431000000000000
client s2 0012000800000000000000020000000d543$4000000000000
client s3 0012000800000000000000010000000d5431000000000000
client s3 0012000800000000000000020000000d5631000000000000
client s2 00010010000500010000000400000031000000000000000000000000$M0000
client s3 00010010001300030000000600000031000000000000000000000000$M0000
client s1 000100100000000100000001000000320000000000000000000000000001$M
client s1 00010010$J00010000000200000033000000000000000000000000$M0000
server u1 00010038001300010000000100000001$A3b9aca000000000$9$V$V$V$V$V$V$V$V$V$V$V
server u1 00010038001300030000000100000002$A3b9aca000000000$9$V$V$V$V$V$V$V$V$V$V$V
";

/// The words that may stand at a place.
pub(crate) fn words(letter: u8) -> &'static [u8] {
    match letter {
        b'/' => b"\n",
        b'1' => b"1",
        b'2' => b"1 2",
        b'3' => b"1 2 3",
        b'4' => b"1 2 3 4",
        b'5' => b"1 2 3 4 5",
        b'9' => b"1 2 3 4 5 6 7 8 9",
        // Types that may be asked for, those that are written, those of channels, and numbers of none.
        b'T' =>
            b"0005 0005 0000 0001 0003 0004 0006 000c 000c 0007 0008 000a 000b 000d 0013 0013 000e 000f 0011 0012 0014 0021 0021 0021 001a 001a 001f 0018 0000 0015 0016 0019 001b 001c 001d 001e 0020 0022 0017",
        b'W' => b"0005 0005 0005 0001 0004 0003 0000 0006 0002",
        b'N' => b"0005 0005 0005 0005 0003 0003 0000 0001 0004 0006 0002",
        b'I' => b"0003 0003 0003 0006 0005",
        // What is asked of an ENUM, and of a DOUBLE.
        b'J' => b"001f 001f 0018 0000 0000 0003 0007 000e 001a 0021",
        b'Y' => b"0022 0022 001b 0006 0014",
        b'L' => b"0007 0013 0015 001a 0021 0023 0026 0027 ffff",
        // Counts that may be asked for, and those of channels and values.
        b'K' => b"0001 0001 0001 0001 0000 0002 0003 0003 0004 0014 0015",
        b'C' => b"0001 0001 0003 0003 0002 0000 0004 0005 0014",
        // Masks, alarms, statuses, rights, versions, groups' rights and hosts' ends.
        b'M' => b"0001 0001 0001 0002 0004 0005 0007 0003 0006 0008 0009 000a 000c 000f 0010 0000",
        b'A' => b"00000000 00000000 00000000 00030001 00030002 00110003",
        b'S' => b"00000001 00000001 000000a0 00000178 00000000",
        b'R' => b"3 3 3 3 1 2 0 7",
        b'X' => b"d d d d b 9",
        b'G' => b"NONE READ WRITE",
        b'H' => b"31 32 33 37",
        // Limits, those that hold or don't, and what they may be.
        b'Z' => b"sessions servers links searches share channels subscriptions reads writes",
        b'O' =>
            b"makes-room reuses-numbers passes-over-gone tells-unreadable answers-searches checks-hosts",
        b'z' => b"0 1 2 3 3 4 5 6",
        b'y' => b"0 1",
        b'w' => b"0 1 24 40 100 1000",
        // Four bytes of a value.
        b'V' =>
            b"00000000 00000001 00000007 31320000 ffffffff ff00fe01 30783134 00002a00 80000000 41424344 7fffffff",
        // Counts of messages that tell properties, numbers of states, and texts of them.
        b'P' => b"0001 0001 0001 0000 0000 0002",
        b'B' => b"0002 0002 0003 0010 0011 ffff",
        b'F' =>
            b"4f46004600000000000000000000000000000000000000000000 4f4e000000000000000000000000000000000000000000000000 4141414141414141414141414141414141414141414141414141 0000000000000000000000000000000000000000000000000000",
        // Commands that no client or server sends.
        b'U' => b"03 05 06 07 0a 0b 0d 0e 10 11 16 18 19 1a 1b 1c 63",
        // Types and counts in decimal.
        b'D' => b"5 5 5 0 1 3 4 6 7 12 19 15 21 33 33 26 31 24 28 34 35",
        b'E' => b"0 1 1 1 2 3 4 20",
        _ => b"",
    }
}

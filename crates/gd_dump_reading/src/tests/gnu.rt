use crate::tests::reading::read_ascii;
use crate::{DumpError, DumpKind};

// Dumps that GNU dbm's `gdbm_dump` made.
const EMPTY_DATA: &[u8] =
    b"# GDBM dump file created by GDBM version 1.23. 04/02/2022 on Mon Nov 30 21:00:06 2026
#:version=1.1
#:file=b512-s-empty.gdbm
#:uid=0,user=root,gid=0,group=root,mode=644
#:format=standard
# End of header
#:len=1
Yg==
#:len=1
eA==
#:len=0
#:len=0
#:len=1
YQ==
#:len=0
#:count=3
# End of data
";

const NO_RECORDS: &[u8] =
    b"# GDBM dump file created by GDBM version 1.23. 04/02/2022 on Mon Nov 30 21:00:06 2026
#:version=1.1
#:file=b512-s-r0.gdbm
#:uid=0,user=root,gid=0,group=root,mode=644
#:format=standard
# End of header
#:count=0
# End of data
";

const NUMSYNC: &[u8] =
    b"# GDBM dump file created by GDBM version 1.23. 04/02/2022 on Mon Nov 30 21:00:06 2026
#:version=1.1
#:file=b1024-n-r1.gdbm
#:uid=0,user=root,gid=0,group=root,mode=644
#:format=numsync
# End of header
#:len=8
a2V5MDAwMDA=
#:len=3
djAt
#:count=1
# End of data
";

#[test]
fn reads_dumps_of_gnu_dbm(rt: HostRuntime) {
    let rows: [(&[u8], &[u8]); 3] = [
        (EMPTY_DATA, b"head standard b512-s-empty.gdbm b=x = a= end "),
        (NO_RECORDS, b"head standard b512-s-r0.gdbm end "),
        (NUMSYNC, b"head numsync b1024-n-r1.gdbm key00000=v0- end "),
    ];
    for (bytes, want) in rows {
        for size in [1, 2, 3, 150] {
            let (text, error) = read_ascii(&rt, rt.alloc(), bytes, size);
            assert_eq!(rt; text.as_slice(), want, "{bytes:?}");
            assert_eq!(rt; error, None, "{bytes:?}");
        }
    }
}

// A carriage return is part of its line.
#[test]
fn takes_a_carriage_return_as_part_of_its_line(rt: HostRuntime) {
    let rows: [(&[u8], &[u8], DumpKind, u64); 9] = [
        (b"#:version=1.1\r\n", b"", DumpKind::Version, 0),
        (
            b"#:version=1.1\n#:format=standard\r\n",
            b"",
            DumpKind::Parameter,
            14,
        ),
        (
            b"#:version=1.1\n# End of header\r\n",
            b"",
            DumpKind::Truncated,
            31,
        ),
        (
            b"#:version=1.1\n# End of header\n\r\n",
            b"head ",
            DumpKind::Parameter,
            30,
        ),
        (
            b"#:version=1.1\n# End of header\n#:len=1\r\n",
            b"head ",
            DumpKind::Parameter,
            30,
        ),
        (
            b"#:version=1.1\n# End of header\n#:len=1\nYQ==\r\n#",
            b"head ",
            DumpKind::Length,
            30,
        ),
        (
            b"#:version=1.1\n# End of header\n#:count=0\r\n",
            b"head ",
            DumpKind::Parameter,
            30,
        ),
        (
            b"#:version=1.1\n# End of header\n#:count=000000000000000000000\n",
            b"head ",
            DumpKind::Parameter,
            30,
        ),
        (
            b"#:version=1.1\n# End of header\n#:count=0\n# End of data\r\n",
            b"head ",
            DumpKind::Truncated,
            55,
        ),
    ];
    for (bytes, want, kind, place) in rows {
        let (text, error) = read_ascii(&rt, rt.alloc(), bytes, 150);
        assert_eq!(rt; text.as_slice(), want, "{bytes:?}");
        assert_eq!(rt; error, Some(DumpError::Bad { kind, place }), "{bytes:?}");
    }
}

use super::*;
use crate::fnv::fnv_1a;
use bm_base::Flow;

#[test]
fn hashes_are_those_of_the_published_vectors(rt: HostRuntime) {
    // From Noll's test vectors of FNV-1a with 64 bits.
    assert_eq!(rt; fnv_1a(b""), 0xcbf2_9ce4_8422_2325);
    assert_eq!(rt; fnv_1a(b"a"), 0xaf63_dc4c_8601_ec8c);
    assert_eq!(rt; fnv_1a(b"b"), 0xaf63_df4c_8601_f1a5);
    assert_eq!(rt; fnv_1a(b"foobar"), 0x8594_4171_f739_67e8);
    assert_eq!(rt; fnv_1a(b"chongo was here!\n"), 0x4681_0940_eff5_f915);
}

#[test]
fn flows_have_octets_and_a_bucket_and_a_shard(rt: HostRuntime) {
    // Source port, bucket of 8, shard of 4.
    let rows = [
        (1000, 4, 2),
        (1001, 1, 2),
        (1002, 6, 1),
        (1003, 3, 1),
        (1004, 0, 0),
        (1005, 5, 1),
        (1006, 2, 0),
        (1007, 7, 0),
    ];
    for (sport, bucket, shard) in rows {
        let flow = Flow {
            src: 0x0a00_0001,
            dst: 0xc000_0201,
            sport,
            dport: 80,
        };
        assert_eq!(rt; bucket_of(&flow, 8), bucket, "at {sport}");
        assert_eq!(rt; shard_of(&flow, 4), shard, "at {sport}");
    }
    let flow = Flow {
        src: 0x0a00_0001,
        dst: 0xc000_0201,
        sport: 1000,
        dport: 80,
    };
    assert_eq!(rt;
        flow_octets(&flow),
        [10, 0, 0, 1, 192, 0, 2, 1, 0x03, 0xe8, 0, 80, 6]
    );
    assert_eq!(rt; flow_hash(&flow), 0xe519_7f1e_0a8d_1df4);
}

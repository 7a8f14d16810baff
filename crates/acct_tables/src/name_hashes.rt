// The hash of a name, by which records are found (passwd(5), and likewise the other five tables).
ghost use Rattle.std.specs.Prelude.{◌≡◌, take};
ghost use Rattle.acct_tables.specs.NameHashes.{name_hash, next_hash};

// The hash of no bytes.
const NO_BYTES: u64 = 14_695_981_039_346_656_037;

// By so much a hash is multiplied at each byte.
const FACTOR: u64 = 1_099_511_628_211;

/// The hash of a name, FNV-1a, by which an index of lines finds its records.
pub fn name_hash(name: &[u8]) -> u64
    ensures { result ≡ name_hash name.now }
{
    let mut hash = NO_BYTES;
    'bytes: for byte in name {
        hash = next_hash(hash, *byte);
    }
    hash
}

// The hash with one byte more.
fn next_hash(hash: u64, byte: u8) -> u64
    ensures { result ≡ next_hash hash byte }
{
    (hash ^ byte as u64).wrapping_mul(FACTOR)
}

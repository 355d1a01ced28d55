// Marks as a file keeps them.
ghost use Rattle.std.specs.Prelude.{◌≡◌, length};
ghost use Rattle.tool_index.specs.Stored.{number_at, mark_bytes, stored_in, decoded};

// The bytes of a mark.
pub const BYTES: usize = 16;

// Room for every mark that an index has.
// Ruled out: fewer numbers than two for each of 4,096 marks; more.
pub fn numbers() -> [u64; 8192]
    ensures { 8192 ≡ length result }
{
    [0u64; 8192]
}

// The number that starts at a place.
// Ruled out: the lower word first; a number cut by the end.
fn number_at(bytes: &[u8], at: usize) -> u64
    ensures { result ≡ number_at bytes.now at }
{
    if bytes.len() < 8 {
        return 0;
    }
    if at > bytes.len() - 8 {
        return 0;
    }
    u64::from_be_bytes([
        bytes[at],
        bytes[at + 1],
        bytes[at + 2],
        bytes[at + 3],
        bytes[at + 4],
        bytes[at + 5],
        bytes[at + 6],
        bytes[at + 7],
    ])
}

// A mark's bytes.
// Ruled out: the resets first; the lowest byte first.
pub fn mark_bytes(place: u64, resets: u64) -> [u8; BYTES]
    ensures { result ≡ mark_bytes place resets }
{
    let mut bytes = [0; BYTES];
    bytes[..8].copy_from_slice(&place.to_be_bytes());
    bytes[8..].copy_from_slice(&resets.to_be_bytes());
    bytes
}

// The marks that bytes hold, into lent numbers as far as these go; how many there are.
// Ruled out: a place for its resets; a number behind the marks changed.
pub fn decode(bytes: &[u8], lent: &mut [u64]) -> usize
    ensures value { result ≡ stored_in bytes.now lent.old }
    ensures lent_after { lent.new ≡ decoded bytes.now lent.old result }
{
    let n = (bytes.len() / BYTES).min(lent.len() / 2);
    for i in 0..n {
        lent[2 * i] = number_at(bytes, 16 * i);
        lent[2 * i + 1] = number_at(bytes, 16 * i + 8);
    }
    n
}

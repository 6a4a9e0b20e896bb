// Numbers in bytes, little endian (document 01, 'Score and program'). A number whose bytes are not all there is 0.
#![tactic(auto)]

ghost use Rattle.std.specs.Prelude.{◌≡◌, ◌+◌, ◌<◌, ◌≤◌, length, slice_range, MatchOption};
ghost use Rattle.words.specs.Words.{little, number_at};

// The N bytes from a place on, if they are all there.
fn bytes_at<const N: usize>(s: &[u8], at: usize) -> Option<[u8; N]>
    ensures { MatchOption result (length s.now < at + N) (λ bytes. (at + N ≤ length s.now) × (bytes ≡ slice_range s.now at (at + N))) }
{
    s.get(at..at.checked_add(N)?)?.try_into().ok()
}

pub fn u8_at(s: &[u8], at: usize) -> u8
    ensures { result ≡ number_at 1 s.now at }
{
    bytes_at(s, at).map_or(0, u8::from_le_bytes)
}

pub fn u16_at(s: &[u8], at: usize) -> u16
    ensures { result ≡ number_at 2 s.now at }
{
    bytes_at(s, at).map_or(0, u16::from_le_bytes)
}

pub fn u32_at(s: &[u8], at: usize) -> u32
    ensures { result ≡ number_at 4 s.now at }
{
    bytes_at(s, at).map_or(0, u32::from_le_bytes)
}

pub fn u64_at(s: &[u8], at: usize) -> u64
    ensures { result ≡ number_at 8 s.now at }
{
    bytes_at(s, at).map_or(0, u64::from_le_bytes)
}

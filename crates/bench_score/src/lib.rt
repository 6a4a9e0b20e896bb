// Scores for tools/bench: what `replay` does but for the printing, told by the length of the listing.
#![tactic(auto)]

ghost use Rattle.std.specs.Prelude.{◌≡◌, length};
ghost use Rattle.pack.specs.Pack.{over};
ghost use Rattle.player.specs.Listing.{listing_by};

#[unsafe(no_mangle)]
pub extern "C" fn bench_score(score: &[u8], pack: &[u16]) -> u64
    ensures { result ≡ length (listing_by (over pack.now) score.now) }
{
    player::listing_len(score, pack) as u64
}

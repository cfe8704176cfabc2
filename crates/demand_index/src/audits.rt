// The audit says yes to what the builder built.
ghost use Rattle.std.specs.Prelude.{◌≡◌, true};
ghost use Rattle.demand_index.specs.Builds.{built};

// A text, cut positions, and a row with anything in it: after a build in those pieces the audit says yes.
pub fn audited(text: &[u8], cuts: &[usize], row: &mut [u32]) -> bool
    ensures { (result ≡ true) × (row.new ≡ (built text.now cuts.now row.old).row) }
{
    if !crate::building::build_in_pieces(text, cuts, row) {
        return crate::building::may_refuse(text.len(), row.len());
    }
    index_audit::audit(text, row)
}

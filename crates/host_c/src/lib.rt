// The calls of `host` for C: the archive that host/settlement.h is for. Each is the call of that name.
#![tactic(auto)]

ghost use Rattle.std.specs.Prelude.{◌≡◌};
ghost use Rattle.model.specs.Lent.{bag_lent, state_before, state_after};
ghost use Rattle.model.specs.Step.{asked};
ghost use Rattle.format.specs.Lent.{reader_before, reader_after};
ghost use Rattle.host.specs.Host.{host_read, read_by_host, host_run, ran_by_host, host_step, stepped_by_host};

// Reads a job file into the lent tables, and its K, M, N, T, cycle and number of additional lists into the buffer for sizes. A refusal leaves every
// word as it was.
#[unsafe(no_mangle)]
pub extern "C" fn settlement_read(
    file: &[u8],
    price: &mut [u32],
    offer_owner: &mut [u16],
    offer_code: &mut [u8],
    offer_issuer: &mut [u16],
    grocer_owner: &mut [u16],
    tally_grocer: &mut [u16],
    tally_box: &mut [u16],
    tally_code: &mut [u8],
    tally_count: &mut [i32],
    tally_issuer: &mut [u16],
    tally_bag: &mut [u16],
    tally_revision: &mut [u16],
    tally_offer: &mut [u16],
    sizes: &mut [u16],
) -> u16
    ensures { host_read result
        (reader_after price offer_owner offer_code offer_issuer grocer_owner tally_grocer tally_box tally_code tally_count tally_issuer
        tally_bag tally_revision tally_offer) sizes.new
        ≡ read_by_host file.now
        (reader_before price offer_owner offer_code offer_issuer grocer_owner tally_grocer tally_box tally_code tally_count tally_issuer
        tally_bag tally_revision tally_offer) sizes.old }
{
    host::settlement_read(
        file,
        price,
        offer_owner,
        offer_code,
        offer_issuer,
        grocer_owner,
        tally_grocer,
        tally_box,
        tally_code,
        tally_count,
        tally_issuer,
        tally_bag,
        tally_revision,
        tally_offer,
        sizes,
    )
}

// One step request on the lent tables. A refusal leaves every word as it was.
#[unsafe(no_mangle)]
pub extern "C" fn settlement_step(
    boxes: u16,
    grocers: u16,
    offers: u16,
    tallies: u16,
    lists: u16,
    price: &[u32],
    offer_owner: &[u16],
    grocer_owner: &[u16],
    tally_grocer: &[u16],
    tally_box: &[u16],
    tally_offer: &[u16],
    tally_count: &[i32],
    tally_bag: &[u16],
    tally_revision: &[u16],
    known: &mut [u32],
    price_transit: &mut [u32],
    working: &mut [i64],
    total_transit: &mut [i64],
    statement: &mut [i64],
    done: &mut [u16],
    sent: &mut [u32],
    kind: u16,
    first: u16,
    second: u16,
) -> u16
    ensures { host_step result
        (state_after known price_transit working total_transit statement done sent)
        ≡ stepped_by_host
        (bag_lent boxes grocers offers tallies lists price offer_owner grocer_owner tally_grocer tally_box tally_offer tally_count
        tally_bag tally_revision)
        (state_before known price_transit working total_transit statement done sent)
        (asked kind first second) }
{
    host::settlement_step(
        boxes,
        grocers,
        offers,
        tallies,
        lists,
        price,
        offer_owner,
        grocer_owner,
        tally_grocer,
        tally_box,
        tally_offer,
        tally_count,
        tally_bag,
        tally_revision,
        known,
        price_transit,
        working,
        total_transit,
        statement,
        done,
        sent,
        kind,
        first,
        second,
    )
}

// The run of a job from a fresh state; the places of the steps picked go into one buffer, as far as it reaches, and what it reports into
// another. A refusal leaves every word as it was.
#[unsafe(no_mangle)]
pub extern "C" fn settlement_run(
    boxes: u16,
    grocers: u16,
    offers: u16,
    tallies: u16,
    lists: u16,
    price: &[u32],
    offer_owner: &[u16],
    grocer_owner: &[u16],
    tally_grocer: &[u16],
    tally_box: &[u16],
    tally_offer: &[u16],
    tally_count: &[i32],
    tally_bag: &[u16],
    tally_revision: &[u16],
    known: &mut [u32],
    price_transit: &mut [u32],
    working: &mut [i64],
    total_transit: &mut [i64],
    statement: &mut [i64],
    done: &mut [u16],
    sent: &mut [u32],
    choices: &[u16],
    picked: &mut [u16],
    report: &mut [u32],
) -> u16
    ensures { host_run result
        (state_after known price_transit working total_transit statement done sent)
        picked.new
        report.new
        ≡ ran_by_host
        (bag_lent boxes grocers offers tallies lists price offer_owner grocer_owner tally_grocer tally_box tally_offer tally_count
        tally_bag tally_revision)
        (state_before known price_transit working total_transit statement done sent)
        choices.now
        picked.old
        report.old }
{
    host::settlement_run(
        boxes,
        grocers,
        offers,
        tallies,
        lists,
        price,
        offer_owner,
        grocer_owner,
        tally_grocer,
        tally_box,
        tally_offer,
        tally_count,
        tally_bag,
        tally_revision,
        known,
        price_transit,
        working,
        total_transit,
        statement,
        done,
        sent,
        choices,
        picked,
        report,
    )
}

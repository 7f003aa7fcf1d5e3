// The two order tables: what is written of an order that is known to be one, and the inverse of any lent order.
ghost use Rattle.std.specs.Prelude.{◌≡◌, ◌≤◌, true, length, take};
ghost use Rattle.bits.specs.Refusals.{answered};
ghost use Rattle.order.specs.Order.{is_order};
ghost use Rattle.order.specs.Tables.{identity, inverse_of, filled, inverted, inverse_after};
ghost use Rattle.order.specs.Private.{placed};
ghost use Rattle.toc.specs.Private.{order_by};

// The first count words become 0, 1, 2, .., as far as the table goes: both orders of a table that is not permuted.
fn identity_into(table: &mut [u32], count: u32)
    ensures { table.new ≡ filled (identity count) table.old }
{
    let end = (count as usize).min(table.len());
    for i in 0..end {
        table[i] = i as u32;
    }
}

// The order's first count entries become the table's first words, as far as the table goes.
fn order_into(order: &[u32], count: u32, table: &mut [u32])
    ensures { table.new ≡ filled (take count order.now) table.old }
{
    let end = (count as usize).min(order.len());
    fill::fill(table, 0, &order[..end]);
}

// Each of the order's first count sections is written at its sent number: for an order that was checked, the inverse.
fn inverse_into(order: &[u32], count: u32, inverse: &mut [u32])
    ensures { inverse.new ≡ placed (take count order.now) inverse.old }
{
    for j in 0..count {
        let i = j as usize;
        if order.len() <= i {
            return;
        }
        fill::put(inverse, order[i] as usize, j);
    }
}

// The two orders of a table: the lent one and its inverse, or the identity twice. A flag beside the slice, as `order_by given
// lent count` has them.
pub fn put_orders(given: bool, lent: &[u32], count: u32, order: &mut [u32], inverse: &mut [u32])
    requires { (is_order count (order_by given lent.now count) ≡ true) × (count ≤ length inverse.old) }
    ensures { (order.new ≡ filled (order_by given lent.now count) order.old)
        × (inverse.new ≡ filled (inverse_of count (order_by given lent.now count)) inverse.old) }
{
    if given {
        order_into(lent, count, order);
        inverse_into(lent, count, inverse);
    } else {
        identity_into(order, count);
        identity_into(inverse, count);
    }
}

// The inverse of a lent order: 10, then 3 where the lent table is shorter than count, then 13; refused, the table stays as it was.
pub fn invert(order: &[u32], count: u32, inverse: &mut [u32]) -> Result<(), bits::Refusal>
    ensures { (result ≡ answered (inverted count order.now inverse.old) tt)
        × (inverse.new ≡ inverse_after count order.now inverse.old) }
{
    if 65536 < count {
        return Err(bits::refused(10, 0));
    }
    if inverse.len() < count as usize {
        return Err(bits::refused(3, 0));
    }
    order::check_order(order, count)?;
    inverse_into(order, count, inverse);
    Ok(())
}

//! The table of a schema's leads.
use crate::texts::schema;
use lead_table::lead_table;

#[test]
fn a_table_has_the_leads_of_each_constructor(rt: HostRuntime) {
    let alloc = rt.alloc();
    let schema = schema(&rt, alloc, "a$0 = A; b$10 = A; c$_ x:A = C; d$_ y:# = D;");
    let table = lead_table(alloc, schema.constructors.as_slice()).expect(&rt, "memory");
    let counts: [usize; 4] = [1, 1, 2, 1];
    assert!(rt; table.leads.len() == counts.len());
    for (place, leads) in table.leads.as_slice().iter().enumerate() {
        assert!(rt; place < 4 && leads.len() == counts[place]);
    }
}

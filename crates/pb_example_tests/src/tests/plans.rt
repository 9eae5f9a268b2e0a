//! Plan files, plans and step scripts.

use std::test::Fail;

// example of pb_service document.rt read_plan
#[test]
fn service_read_plan(rt: HostRuntime) -> Result<(), Fail> {
    use pb_service::{PlanFault, read_plan};

    let file = b"
        bridge = [{ name = 'B1', address = '02-00-00-00-00-01' }]
        service = [{ name = 'red', vid = 100 }]
        port = [{ name = 'C1', bridge = 'B1', port = 1, service = 'red' }]";
    let (plan, ports) = read_plan(rt.alloc(), file)?;
    assert_eq!(rt; (plan.bridges.len(), plan.ageing), (1, 300));
    assert_eq!(rt; ports.len(), 1);
    let refused = read_plan(rt.alloc(), b"ageing 300").err();
    assert_eq!(rt; refused, Some(PlanFault::Toml));
    Ok(())
}

// example of pb_lan sound.rt plan_is_sound
#[test]
fn lan_plan_is_sound(rt: HostRuntime) -> Result<(), Fail> {
    use pb_lan::plan_is_sound;
    use pb_service::read_plan;

    let (mut plan, _) = read_plan(rt.alloc(), b"[network]\nageing = 10\n")?;
    assert!(rt; plan_is_sound(&plan));
    // The ageing time is 10 ticks or more.
    plan.ageing = 9;
    assert!(rt; !plan_is_sound(&plan));
    Ok(())
}

// example of pb_step_script line.rt read_line
#[test]
fn step_script_read_line(rt: HostRuntime) -> Result<(), Fail> {
    use pb_lan::Event;
    use pb_service::read_plan;
    use pb_step_script::{Names, read_line};

    let file = b"bridge = [{ name = 'B1', address = '02-00-00-00-00-01' }]";
    let (plan, _) = read_plan(rt.alloc(), file)?;
    let names = Names::new(rt.alloc(), &plan)?;
    let event = read_line(rt.alloc(), 80, &names, b"tick B1")?;
    assert_eq!(rt; event, Some(Event::Tick { bridge: 1 }));
    let event = read_line(rt.alloc(), 80, &names, b"tick")?;
    assert_eq!(rt; event, None);
    Ok(())
}
